//! Reading a network line byte by byte.
#![tactic(auto)]

ghost use Rattle.std.specs.Prelude.{◌≡◌};
ghost use Rattle.bk_net.specs.NetReading.{ended_wire as ended_before, net_ending_at, net_kind_of as kind_of_byte};
ghost use Rattle.bk_net.specs.NetReading.{last_wire as last, next_net_place, with_digit as with_digit_behind};

/// What a byte is to the grammar of network lines; a digit with its value.
#[derive(Clone, Copy)]
pub enum ByteKind {
    Blank,
    Digit(u8),
    Dash,
    Semicolon,
    Other,
}

/// What a line is, once it could end: nothing, or a net of so many nodes.
#[derive(Clone, Copy)]
pub enum NetEnding {
    Empty,
    Nodes(u16),
}

/// Where the reader of a line stands: the numbers are the number of nodes, and what was read of the wire at hand.
#[derive(Clone, Copy)]
pub enum Place {
    /// Before all but blanks.
    Start,
    /// Right behind a digit of the number of nodes.
    Count(u16),
    /// Behind the number of nodes or a wire, and a blank.
    Between(u16),
    /// Right behind a digit of the node where a wire begins.
    First(u16, u16),
    /// Right behind the `-` of a wire.
    BehindDash(u16, u16),
    /// Right behind a digit of the node where a wire ends.
    Second(u16, u16, u16),
    /// Behind the `;` of a comment.
    Comment(NetEnding),
}

// What a byte is to the grammar.
pub(crate) fn kind_of(byte: u8) -> ByteKind
    ensures { result ≡ kind_of_byte byte }
{
    match byte {
        b'0'..=b'9' => ByteKind::Digit(byte - b'0'),
        b' ' | b'\t' | b'\r' => ByteKind::Blank,
        b'-' => ByteKind::Dash,
        b';' => ByteKind::Semicolon,
        _ => ByteKind::Other,
    }
}

// A number and a further digit: none goes on behind a 0, nor behind three digits.
fn with_digit(value: u16, digit: u8) -> Option<u16>
    ensures { result ≡ with_digit_behind value digit }
{
    if 0 < value && value < 100 {
        Some(value * 10 + u16::from(digit))
    } else {
        None
    }
}

impl Place {
    // The place behind a further byte, or `None` where no line goes on with it.
    pub(crate) fn next(self, kind: ByteKind) -> Option<Place>
        ensures { result ≡ next_net_place self kind }
    {
        match self {
            Place::Start => at_start(kind),
            Place::Count(nodes) => in_count(nodes, kind),
            Place::Between(nodes) => between(nodes, kind),
            Place::First(nodes, from) => in_first(nodes, from, kind),
            Place::BehindDash(nodes, from) => match kind {
                ByteKind::Digit(digit) => Some(Place::Second(nodes, from, u16::from(digit))),
                _ => None,
            },
            Place::Second(nodes, from, to) => in_second(nodes, from, to, kind),
            Place::Comment(_) => Some(self),
        }
    }

    // The wire that ends before a further byte.
    pub(crate) fn ended_wire(self, kind: ByteKind) -> Option<(u16, u16)>
        ensures { result ≡ ended_before self kind }
    {
        match (self, kind) {
            (Place::Second(_, from, to), ByteKind::Blank | ByteKind::Semicolon) => Some((from, to)),
            _ => None,
        }
    }

    // The wire that ends with the line.
    pub(crate) fn last_wire(self) -> Option<(u16, u16)>
        ensures { result ≡ last self }
    {
        match self {
            Place::Second(_, from, to) => Some((from, to)),
            _ => None,
        }
    }

    // What a line is that ends here, or `None` where none does.
    pub(crate) fn ending(self) -> Option<NetEnding>
        ensures { result ≡ net_ending_at self }
    {
        match self {
            Place::Start => Some(NetEnding::Empty),
            Place::Count(nodes) | Place::Between(nodes) | Place::Second(nodes, _, _) => {
                Some(NetEnding::Nodes(nodes))
            }
            Place::Comment(ending) => Some(ending),
            Place::First(_, _) | Place::BehindDash(_, _) => None,
        }
    }
}

fn at_start(kind: ByteKind) -> Option<Place>
    ensures { result ≡ next_net_place Place.Start kind }
{
    match kind {
        ByteKind::Blank => Some(Place::Start),
        ByteKind::Digit(digit) => Some(Place::Count(u16::from(digit))),
        ByteKind::Semicolon => Some(Place::Comment(NetEnding::Empty)),
        _ => None,
    }
}

fn in_count(nodes: u16, kind: ByteKind) -> Option<Place>
    ensures { result ≡ next_net_place (Place.Count nodes) kind }
{
    match kind {
        ByteKind::Blank => Some(Place::Between(nodes)),
        ByteKind::Digit(digit) => with_digit(nodes, digit).map(Place::Count),
        ByteKind::Semicolon => Some(Place::Comment(NetEnding::Nodes(nodes))),
        _ => None,
    }
}

fn between(nodes: u16, kind: ByteKind) -> Option<Place>
    ensures { result ≡ next_net_place (Place.Between nodes) kind }
{
    match kind {
        ByteKind::Blank => Some(Place::Between(nodes)),
        ByteKind::Digit(digit) => Some(Place::First(nodes, u16::from(digit))),
        ByteKind::Semicolon => Some(Place::Comment(NetEnding::Nodes(nodes))),
        _ => None,
    }
}

fn in_first(nodes: u16, from: u16, kind: ByteKind) -> Option<Place>
    ensures { result ≡ next_net_place (Place.First nodes from) kind }
{
    match kind {
        ByteKind::Digit(digit) => with_digit(from, digit).map(|from| Place::First(nodes, from)),
        ByteKind::Dash => Some(Place::BehindDash(nodes, from)),
        _ => None,
    }
}

fn in_second(nodes: u16, from: u16, to: u16, kind: ByteKind) -> Option<Place>
    ensures { result ≡ next_net_place (Place.Second nodes from to) kind }
{
    match kind {
        ByteKind::Blank => Some(Place::Between(nodes)),
        ByteKind::Digit(digit) => with_digit(to, digit).map(|to| Place::Second(nodes, from, to)),
        ByteKind::Semicolon => Some(Place::Comment(NetEnding::Nodes(nodes))),
        _ => None,
    }
}
