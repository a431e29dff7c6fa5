//! The tiling that a line of codes speaks of.

ghost use Rattle.std.specs.Option.{option_copied};
ghost use Rattle.std.specs.Prelude.{IfErr, IfOk, IfSome, IsTrue, OnOk, length, ◌<◌, ◌↔◌, ◌≡◌, ◌≤◌};
ghost use Rattle.bk_text.specs.CodeLine.{Flat, Item};
ghost use Rattle.bk_code.specs.Code.{flat};
ghost use Rattle.bk_text.specs.GatheredSides.{line_gathered};
ghost use Rattle.bk_text.specs.ReadLine.{IsInRange};
ghost use Rattle.bk_tiling.specs.declared.TheConstants.{MOST_SQUARES};
ghost use Rattle.bk_answer.specs.Item.{IsLaidItem, IsLaidLine, IsSize, IsStatedBy, side_count};
ghost use Rattle.bk_answer.specs.Refusing.{IsItemRefused, IsLineRefused, refused_for, refused_text};

use bk_code::{Code, flat};
use bk_ports::LONGEST_LINE;
use bk_profile::{Profile, Refusal, lay_code_in, lay_flat_in};
use bk_report::Refused;
use bk_skel::Room;
use bk_text::{Ending, Gatherer, TextFault, read_into};
use bk_tiling::Tiling;

/// Room to read a line and to lay its squares, for one line after another: it holds anything before and after.
#[derive(Drop)]
pub struct Desk {
    gatherer: Gatherer,
    profile: Profile,
    pub(crate) tiling: Tiling,
    pub(crate) room: Room,
}

impl Desk {
    /// A desk, which holds the square of one cell.
    pub fn new() -> Desk {
        Desk {
            gatherer: Gatherer::new(),
            profile: Profile::new(1),
            tiling: Tiling::unit(),
            room: Room::new(),
        }
    }
}

/// The tiling that a line of codes speaks of, by Bouwkamp's notation (1946-47) or as a row of a table, or `None` where
/// it has no item. It is laid on the desk. A line is refused exactly where it has more than 8,192 bytes or more than
/// 200 sides, is outside the grammar, or no tiling has the code, the order and the size that it states. The first cause
/// is told.
pub fn lay_line<'a>(line: &[u8], desk: &'a mut Desk) -> Result<Option<&'a Tiling>, Refused>
    ensures laid { IfOk result (λ laid. IsLaidLine line.now (option_copied laid)) }
    ensures refused { IfErr result (IsLineRefused line.now) }
{
    if line.len() > LONGEST_LINE {
        return Err(Refused::Long);
    }
    match read_into(line, &mut desk.gatherer) {
        Ok(ending) => lay_item(ending, desk),
        Err(fault) => Err(refused_text(fault)),
    }
}

// Lays the item that was gathered at a desk.
fn lay_item(ending: Ending, desk: &mut Desk) -> Result<Option<&Tiling>, Refused>
    requires { IsInRange (line_gathered ending desk.old.gatherer) }
    ensures laid { IfOk result (λ laid. IsLaidItem (line_gathered ending desk.old.gatherer) (option_copied laid)) }
    ensures refused { IfErr result (IsItemRefused (line_gathered ending desk.old.gatherer)) }
    ensures few { side_count (line_gathered ending desk.old.gatherer) ≤ MOST_SQUARES }
{
    match ending {
        Ending::Empty => Ok(None),
        Ending::Coded(header) => {
            lay_groups(
                header.order,
                header.size,
                desk.gatherer.code(),
                &mut desk.profile,
                &mut desk.tiling,
            )?;
            Ok(Some(&desk.tiling))
        }
        Ending::Row(table) => {
            lay_row(
                table.order,
                (table.width, table.height),
                desk.gatherer.sides(),
                &mut desk.profile,
                &mut desk.tiling,
            )?;
            Ok(Some(&desk.tiling))
        }
    }
}

// Lays a code, with the order and the size that are stated.
fn lay_groups(
    order: Option<u64>,
    size: Option<(u64, u64)>,
    code: &Code,
    profile: &mut Profile,
    tiling: &mut Tiling,
) -> Result<(), Refused>
    requires { 0 < length code.now }
    ensures laid { OnOk result (IsStatedBy (Item order size code.now) tiling.new) }
    ensures refused { IfErr result (IsItemRefused (Item order size code.now)) }
    ensures few { length (flat code.now) ≤ MOST_SQUARES }
{
    let sides = flat(code).len();
    if !allows_order(order, sides) {
        return Err(Refused::Order { sides });
    }
    match lay_code_in(code, profile, tiling) {
        Ok(()) => of_size(size, tiling),
        Err(refusal) => Err(refused_for(refusal)),
    }
}

// Lays a table row.
fn lay_row(
    order: u64,
    size: (u64, u64),
    sides: &[u64],
    profile: &mut Profile,
    tiling: &mut Tiling,
) -> Result<(), Refused>
    requires { IsInRange (Flat order size.0 size.1 sides.now) }
    ensures laid { OnOk result (IsStatedBy (Flat order size.0 size.1 sides.now) tiling.new) }
    ensures refused { IfErr result (IsItemRefused (Flat order size.0 size.1 sides.now)) }
{
    if !allows_order(Some(order), sides.len()) {
        return Err(Refused::Order { sides: sides.len() });
    }
    match lay_flat_in(size.0, sides, profile, tiling) {
        Ok(()) => of_size(Some(size), tiling),
        Err(refusal) => Err(refused_for(refusal)),
    }
}

// Refuses a tiling where another size is stated.
fn of_size(size: Option<(u64, u64)>, tiling: &Tiling) -> Result<(), Refused>
    ensures sized { OnOk result (IsSize size tiling.now.width tiling.now.height) }
    ensures refused { IfErr result (λ r. (r ≡ Refused.Size tiling.now.width tiling.now.height)
        × (IsSize size tiling.now.width tiling.now.height → ⊥)) }
{
    let (width, height) = (tiling.width(), tiling.height());
    if allows_size(size, width, height) {
        Ok(())
    } else {
        Err(Refused::Size { width, height })
    }
}

// What is answered to bytes that aren't read.
fn refused_text(fault: TextFault) -> Refused
    ensures { result ≡ refused_text fault }
{
    match fault {
        TextFault::Text { at } => Refused::Text { at },
        TextFault::Many => Refused::Many,
    }
}

// What is answered where laying gives no tiling.
fn refused_for(refusal: Refusal) -> Refused
    ensures { result ≡ refused_for refusal }
{
    match refusal {
        Refusal::Gap { group, gap, sum } => Refused::Gap { group, gap, sum },
        Refusal::Open { least, greatest } => Refused::Open { least, greatest },
    }
}

// Whether no other order is stated.
fn allows_order(order: Option<u64>, sides: usize) -> bool
    ensures { IsTrue result ↔ IfSome order (λ stated. stated ≡ sides) }
{
    order.is_none_or(|stated| stated == sides as u64)
}

// Whether no other size is stated.
fn allows_size(size: Option<(u64, u64)>, width: u64, height: u64) -> bool
    ensures { IsTrue result ↔ IsSize size width height }
{
    size.is_none_or(|stated| stated == (width, height))
}
