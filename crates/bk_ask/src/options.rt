//! The options behind a command.

ghost use Rattle.std.specs.Prelude.{Contains, IfNone, IfSome, IsTrue, map, string_bytes, ◌↔◌};
ghost use Rattle.bk_ask.specs.Options.{AreOptions, IsLeftOut, options_in};

// Whether the words are options in any order, each of one of these names and none of them twice.
pub(crate) fn are_options<'a>(names: &[&'a str], words: &'a [String]) -> bool
    ensures { IsTrue result ↔ AreOptions (map (λ name. name.now) names.now) (map string_bytes words.now) }
{
    let mut left = words;
    'options: while let [name, _, rest @ ..] = left {
        if !names.contains(&name.as_str()) || value_of(rest, name.as_str()).is_some() {
            return false;
        }
        left = rest;
    }
    left.is_empty()
}

// The value of the first option of this name, none where the option is left out.
pub(crate) fn value_of<'a>(words: &'a [String], name: &str) -> Option<&'a str>
    ensures some { IfSome result
        (λ value. Contains (options_in (map string_bytes words.now)) (record { name = name.now; value = value.now })) }
    ensures none { IfNone result (IsLeftOut (options_in (map string_bytes words.now)) name.now) }
{
    let mut left = words;
    'options: while let [first, value, rest @ ..] = left {
        if first.as_str() == name {
            return Some(value.as_str());
        }
        left = rest;
    }
    None
}
