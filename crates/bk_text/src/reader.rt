//! Reading a line of codes byte by byte.

ghost use Rattle.std.specs.Prelude.{IsTrue, ◌<◌, ◌↔◌, ◌≡◌, ◌≤◌};
ghost use Rattle.bk_text.specs.LineReader.{closes_group as closes, ended_side as ended_before, line_ending_at};
ghost use Rattle.bk_text.specs.LineReader.{last_side as last, line_kind_of as kind_of_byte};
ghost use Rattle.bk_text.specs.LineReader.{behind_number, close_group as closed_group};
ghost use Rattle.bk_text.specs.LineReader.{field_with_digit, next_line_place};
ghost use Rattle.bk_text.specs.LineReader.{order_alone as only_order};
ghost use Rattle.bk_text.specs.LineReader.{most as most_of};

use bk_code::LARGEST_HEADER_NUMBER;
use bk_tiling::LONGEST_SIDE;

/// The two kinds of brackets round a group.
#[derive(Clone, Copy)]
pub enum Bracket {
    Square,
    Round,
}

impl Bracket {
    // Whether another bracket is of the same kind.
    pub(crate) fn is_like(self, other: Bracket) -> bool
        ensures { IsTrue result ↔ (self ≡ other) }
    {
        matches!(
            (self, other),
            (Bracket::Square, Bracket::Square) | (Bracket::Round, Bracket::Round)
        )
    }
}

/// What a byte is to the grammar of lines.
#[derive(Clone, Copy)]
pub enum ByteKind {
    Blank,
    Zero,
    /// A digit but 0, with its value.
    Digit(u8),
    Comma,
    /// The `x` of a size.
    Cross,
    Open(Bracket),
    Close(Bracket),
    Semicolon,
    Other,
}

/// The header before the groups of a code.
#[derive(Clone, Copy)]
pub struct Header {
    pub order: Option<u64>,
    pub size: Option<(u64, u64)>,
}

impl Header {
    const NONE: Header = Header {
        order: None,
        size: None,
    };

    fn order_alone(order: u64) -> Header
        ensures { result ≡ only_order order }
    {
        Header {
            order: Some(order),
            size: None,
        }
    }
}

/// The three numbers at the front of a table row.
#[derive(Clone, Copy)]
pub struct Table {
    pub order: u64,
    pub width: u64,
    pub height: u64,
}

/// Which number of a line it is, with what was read before it.
#[derive(Clone, Copy)]
pub enum Field {
    /// The first number of a line: an order, or a width.
    First,
    /// Behind an order: a width.
    Second(u64),
    /// Behind `x`: the height, with the order where one is stated, and the width.
    Height(Option<u64>, u64),
    /// Behind the order and the width of a table row: its height.
    Third(u64, u64),
    /// A side of a table row.
    RowSide(Table),
    /// A side of a group that such a bracket opened.
    Side(Header, Bracket),
}

/// What a line of codes is: one without an item, a code with its header, or a table row with its numbers.
#[derive(Clone, Copy)]
pub enum Ending {
    Empty,
    Coded(Header),
    Row(Table),
}

/// Where the reader of a line stands, with the numbers of the header that were read.
#[derive(Clone, Copy)]
pub enum Place {
    /// Before all but blanks.
    Start,
    /// Right behind a digit of a number, with the value so far.
    Number(Field, u64),
    /// Behind the first number and a blank.
    BehindFirst(u64),
    /// Behind the order and the width of a table row, and a blank.
    BehindSecond(u64, u64),
    /// Right behind `x`.
    BeforeHeight(Option<u64>, u64),
    /// Behind the three numbers of a table row and a blank: a side must come.
    BehindThird(Table),
    /// Behind a side of a table row and a blank.
    BehindRowSide(Table),
    /// Behind a size, or behind a comma between groups: a group must come.
    BeforeGroup(Header),
    /// Behind the bracket that opens a group, or behind a comma in it: a side must come.
    BeforeSide(Header, Bracket),
    /// Behind a side of a group and a blank.
    BehindSide(Header, Bracket),
    /// Behind a group.
    BehindGroup(Header),
    /// Behind the `;` of a comment.
    Comment(Ending),
}

// What a byte is to the grammar.
pub fn kind_of(byte: u8) -> ByteKind
    ensures { result ≡ kind_of_byte byte }
{
    match byte {
        b'0' => ByteKind::Zero,
        b'1'..=b'9' => ByteKind::Digit(byte - b'0'),
        b' ' | b'\t' | b'\r' => ByteKind::Blank,
        b',' => ByteKind::Comma,
        b'x' => ByteKind::Cross,
        b'[' => ByteKind::Open(Bracket::Square),
        b'(' => ByteKind::Open(Bracket::Round),
        b']' => ByteKind::Close(Bracket::Square),
        b')' => ByteKind::Close(Bracket::Round),
        b';' => ByteKind::Semicolon,
        _ => ByteKind::Other,
    }
}

impl Field {
    // The greatest number that may stand here.
    fn most(self) -> u64
        ensures { result ≡ most_of self }
    {
        match self {
            Field::RowSide(_) | Field::Side(_, _) => LONGEST_SIDE,
            _ => LARGEST_HEADER_NUMBER,
        }
    }

    // The place behind a number and a further byte.
    fn next(self, value: u64, kind: ByteKind) -> Option<Place>
        ensures { result ≡ next_line_place (Place.Number self value) kind }
    {
        match kind {
            ByteKind::Zero => self.with_digit(value, 0),
            ByteKind::Digit(digit) => self.with_digit(value, digit),
            _ => self.behind(value, kind),
        }
    }

    // The place behind a further digit of a number.
    fn with_digit(self, value: u64, digit: u8) -> Option<Place>
        ensures { result ≡ field_with_digit self value digit }
    {
        if value > self.most() / 10 {
            return None;
        }
        Some(Place::Number(self, value * 10 + u64::from(digit)))
    }

    // The place behind a number and a byte that is no digit.
    pub(crate) fn behind(self, value: u64, kind: ByteKind) -> Option<Place>
        ensures { result ≡ behind_number self value kind }
    {
        match (self, kind) {
            (Field::First, ByteKind::Blank) => Some(Place::BehindFirst(value)),
            (Field::First, ByteKind::Cross) => Some(Place::BeforeHeight(None, value)),
            (Field::First, ByteKind::Open(bracket)) => Some(Place::BeforeSide(
                Header::order_alone(value),
                bracket,
            )),
            (Field::Second(order), ByteKind::Blank) => Some(Place::BehindSecond(order, value)),
            (Field::Second(order), ByteKind::Cross) => Some(Place::BeforeHeight(
                Some(order),
                value,
            )),
            (Field::Height(order, width), ByteKind::Blank) => Some(Place::BeforeGroup(Header {
                order,
                size: Some((width, value)),
            })),
            (Field::Height(order, width), ByteKind::Open(bracket)) => Some(Place::BeforeSide(
                Header {
                    order,
                    size: Some((width, value)),
                },
                bracket,
            )),
            (Field::Third(order, width), ByteKind::Blank) => Some(Place::BehindThird(Table {
                order,
                width,
                height: value,
            })),
            (Field::RowSide(table), ByteKind::Blank) => Some(Place::BehindRowSide(table)),
            (Field::RowSide(table), ByteKind::Semicolon) => Some(Place::Comment(Ending::Row(
                table,
            ))),
            (Field::Side(header, bracket), ByteKind::Blank) => Some(Place::BehindSide(
                header, bracket,
            )),
            (Field::Side(header, bracket), ByteKind::Comma) => Some(Place::BeforeSide(
                header, bracket,
            )),
            (Field::Side(header, bracket), ByteKind::Close(other)) => close_group(
                header, bracket, other,
            ),
            _ => None,
        }
    }
}

// The place behind a bracket that closes a group, which must be of the kind that opened it.
fn close_group(header: Header, left: Bracket, right: Bracket) -> Option<Place>
    ensures { result ≡ closed_group header left right }
{
    if left.is_like(right) {
        Some(Place::BehindGroup(header))
    } else {
        None
    }
}

impl Place {
    // The place behind a further byte, or `None` where no line goes on with it.
    pub fn next(self, kind: ByteKind) -> Option<Place>
        ensures { result ≡ next_line_place self kind }
    {
        match self {
            Place::Start => at_start(kind),
            Place::Number(field, value) => field.next(value, kind),
            Place::BehindFirst(order) => behind_first(order, kind),
            Place::BehindSecond(order, width) => match kind {
                ByteKind::Blank => Some(self),
                ByteKind::Digit(digit) => Some(Place::Number(
                    Field::Third(order, width),
                    u64::from(digit),
                )),
                _ => None,
            },
            Place::BeforeHeight(order, width) => match kind {
                ByteKind::Digit(digit) => Some(Place::Number(
                    Field::Height(order, width),
                    u64::from(digit),
                )),
                _ => None,
            },
            Place::BehindThird(table) => match kind {
                ByteKind::Blank => Some(self),
                ByteKind::Digit(digit) => Some(Place::Number(
                    Field::RowSide(table),
                    u64::from(digit),
                )),
                _ => None,
            },
            Place::BehindRowSide(table) => behind_row_side(table, kind),
            Place::BeforeGroup(header) => match kind {
                ByteKind::Blank => Some(self),
                ByteKind::Open(bracket) => Some(Place::BeforeSide(header, bracket)),
                _ => None,
            },
            Place::BeforeSide(header, bracket) => before_side(header, bracket, kind),
            Place::BehindSide(header, bracket) => behind_side(header, bracket, kind),
            Place::BehindGroup(header) => behind_group(header, kind),
            Place::Comment(_) => Some(self),
        }
    }

    // The side that ends before a further byte.
    pub fn ended_side(self, kind: ByteKind) -> Option<u64>
        ensures { result ≡ ended_before self kind }
    {
        match (self, kind) {
            (_, ByteKind::Zero | ByteKind::Digit(_)) => None,
            (Place::Number(Field::RowSide(_) | Field::Side(_, _), value), _) => Some(value),
            _ => None,
        }
    }

    // Whether a further byte closes a group.
    pub fn closes_group(self, kind: ByteKind) -> bool
        ensures { result ≡ closes self kind }
    {
        matches!(
            (self, kind),
            (
                Place::Number(Field::Side(_, _), _) | Place::BehindSide(_, _),
                ByteKind::Close(_)
            )
        )
    }

    // The side that ends with the line.
    pub fn last_side(self) -> Option<u64>
        ensures { result ≡ last self }
    {
        match self {
            Place::Number(Field::RowSide(_), value) => Some(value),
            _ => None,
        }
    }

    // What a line is that ends here, or `None` where none does.
    pub fn ending(self) -> Option<Ending>
        ensures { result ≡ line_ending_at self }
    {
        match self {
            Place::Start => Some(Ending::Empty),
            Place::Number(Field::RowSide(table), _) | Place::BehindRowSide(table) => Some(
                Ending::Row(table),
            ),
            Place::BehindGroup(header) => Some(Ending::Coded(header)),
            Place::Comment(ending) => Some(ending),
            _ => None,
        }
    }
}

fn at_start(kind: ByteKind) -> Option<Place>
    ensures { result ≡ next_line_place Place.Start kind }
{
    match kind {
        ByteKind::Blank => Some(Place::Start),
        ByteKind::Digit(digit) => Some(Place::Number(Field::First, u64::from(digit))),
        ByteKind::Open(bracket) => Some(Place::BeforeSide(Header::NONE, bracket)),
        ByteKind::Semicolon => Some(Place::Comment(Ending::Empty)),
        _ => None,
    }
}

fn behind_first(order: u64, kind: ByteKind) -> Option<Place>
    ensures { result ≡ next_line_place (Place.BehindFirst order) kind }
{
    match kind {
        ByteKind::Blank => Some(Place::BehindFirst(order)),
        ByteKind::Digit(digit) => Some(Place::Number(Field::Second(order), u64::from(digit))),
        ByteKind::Open(bracket) => Some(Place::BeforeSide(Header::order_alone(order), bracket)),
        _ => None,
    }
}

fn behind_row_side(table: Table, kind: ByteKind) -> Option<Place>
    ensures { result ≡ next_line_place (Place.BehindRowSide table) kind }
{
    match kind {
        ByteKind::Blank => Some(Place::BehindRowSide(table)),
        ByteKind::Digit(digit) => Some(Place::Number(Field::RowSide(table), u64::from(digit))),
        ByteKind::Semicolon => Some(Place::Comment(Ending::Row(table))),
        _ => None,
    }
}

fn before_side(header: Header, bracket: Bracket, kind: ByteKind) -> Option<Place>
    ensures { result ≡ next_line_place (Place.BeforeSide header bracket) kind }
{
    match kind {
        ByteKind::Blank => Some(Place::BeforeSide(header, bracket)),
        ByteKind::Digit(digit) => Some(Place::Number(
            Field::Side(header, bracket),
            u64::from(digit),
        )),
        _ => None,
    }
}

fn behind_side(header: Header, bracket: Bracket, kind: ByteKind) -> Option<Place>
    ensures { result ≡ next_line_place (Place.BehindSide header bracket) kind }
{
    match kind {
        ByteKind::Blank => Some(Place::BehindSide(header, bracket)),
        ByteKind::Comma => Some(Place::BeforeSide(header, bracket)),
        ByteKind::Close(other) => close_group(header, bracket, other),
        _ => None,
    }
}

fn behind_group(header: Header, kind: ByteKind) -> Option<Place>
    ensures { result ≡ next_line_place (Place.BehindGroup header) kind }
{
    match kind {
        ByteKind::Blank => Some(Place::BehindGroup(header)),
        ByteKind::Comma => Some(Place::BeforeGroup(header)),
        ByteKind::Open(bracket) => Some(Place::BeforeSide(header, bracket)),
        ByteKind::Semicolon => Some(Place::Comment(Ending::Coded(header))),
        _ => None,
    }
}
