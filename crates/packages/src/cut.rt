// The items of a value, cut from its front one after another.
ghost use Rattle.std.specs.Prelude.{◌≡◌, MatchResult};
ghost use Rattle.rules.specs.Packages as Rules;
ghost use Rattle.rules.specs.Packages.{is_blank, is_separator, is_word, operator_of, operator_size, alone};
ghost use Rattle.versions.specs.Operators.{number_of};
ghost use Rattle.packages.specs.Cuts.{first_of, Leads};

use versions::operator::Operator;
use versions::prefix::split_while;

// A package that a value asks for: its name, and the operator and the version, empty where any version will do.
#[derive(Clone, Copy)]
pub struct Item<'a> {
    pub name: &'a [u8],
    pub operator: Operator,
    pub version: &'a [u8],
}

// It has no name, an operator without a version, or a `!` without `=`.
#[derive(Clone, Copy)]
pub struct MalformedItem;

#[tactic(auto, unfolding(rules::specs::Packages::is_blank, rules::specs::Bytes::is))]
fn is_blank(b: u8) -> bool
    ensures { result ≡ is_blank b }
{
    b == b' ' || b == b'\t'
}

#[tactic(auto, unfolding(rules::specs::Packages::is_separator, rules::specs::Bytes::is))]
fn is_separator(b: u8) -> bool
    ensures { result ≡ is_separator b }
{
    is_blank(b) || b == b','
}

// Names and versions run up to another byte.
#[tactic(auto, unfolding(rules::specs::Packages::is_word, rules::specs::Bytes::is))]
fn is_word(b: u8) -> bool
    ensures { result ≡ is_word b }
{
    !is_separator(b) && b != b'=' && b != b'<' && b != b'>' && b != b'!'
}

// The longest operator at the front and what comes after it, where one stands there.
#[tactic(auto, unfolding(rules::specs::Packages::operator_of, rules::specs::Packages::operator_size, rules::specs::Packages::starts_with_equals, rules::specs::Bytes::pick, rules::specs::Bytes::is))]
fn split_operator(text: &[u8]) -> Result<Option<(Operator, &[u8])>, MalformedItem>
    ensures { Leads text.now result }
{
    match text {
        [b'=', rest @ ..] => Ok(Some((Operator::Equal, rest))),
        [b'<', b'=', rest @ ..] => Ok(Some((Operator::AtMost, rest))),
        [b'<', rest @ ..] => Ok(Some((Operator::Less, rest))),
        [b'>', b'=', rest @ ..] => Ok(Some((Operator::AtLeast, rest))),
        [b'>', rest @ ..] => Ok(Some((Operator::Greater, rest))),
        [b'!', b'=', rest @ ..] => Ok(Some((Operator::Unequal, rest))),
        [b'!', ..] => Err(MalformedItem),
        _ => Ok(None),
    }
}

// The first item and what comes after it, where there is one.
pub fn split_first_item(value: &[u8]) -> Result<Option<(Item<'_>, &[u8])>, MalformedItem>
    ensures { first_of result ≡ Rules.first_item value.now }
{
    let (_, start) = split_while(is_separator, value);
    if start.is_empty() {
        return Ok(None);
    }
    let (name, rest) = split_while(is_word, start);
    if name.is_empty() {
        return Err(MalformedItem);
    }
    let (_, signed) = split_while(is_blank, rest);
    let Some((operator, after)) = split_operator(signed)? else {
        let item = Item {
            name,
            operator: Operator::Any,
            version: &[],
        };
        return Ok(Some((item, rest)));
    };
    let (_, asked) = split_while(is_blank, after);
    let (version, rest) = split_while(is_word, asked);
    if version.is_empty() {
        return Err(MalformedItem);
    }
    let item = Item {
        name,
        operator,
        version,
    };
    Ok(Some((item, rest)))
}

// The items of a value, one after another; at a malformed one an error, and nothing after that.
#[derive(Clone, Copy)]
pub struct Items<'a> {
    rest: &'a [u8],
}

impl<'a> Items<'a> {
    ghost use Rattle.packages.specs.Entries.{entries_of};
    ghost use Rattle.packages.specs.Views.{entries_left};

    // From the front of the value on.
    pub fn new(value: &'a [u8]) -> Self
        ensures { entries_left result ≡ entries_of value.now }
    {
        Items { rest: value }
    }
}

impl<'a> Iterator for Items<'a> {
    ghost use Rattle.std.specs.Iterator.{YieldsFirstBy, item_count};
    ghost use Rattle.packages.specs.Views.{told_entry, entries_left};

    type Item = Result<Item<'a>, MalformedItem>;

    ghost next_gives = { YieldsFirstBy told_entry entries_left };

    ghost remaining = { item_count entries_left };

    fn next(&mut self) -> Option<Result<Item<'a>, MalformedItem>> {
        match split_first_item(self.rest) {
            Ok(None) => None,
            Ok(Some((item, rest))) => {
                self.rest = rest;
                Some(Ok(item))
            }
            Err(error) => {
                self.rest = &[];
                Some(Err(error))
            }
        }
    }
}
