//! Where the fields of a line come from.
ghost use Rattle.std.specs.Prelude.{◌≡◌, ◌↔◌, [], ◌∷◌, ◌+◌, ◌<◌, ◌≤◌, ◌==◌, length, position, true, false};
ghost use Rattle.std.specs.Prelude.{IfNone, IfOk, IfSome, IsTrue, Some, take};
ghost use Rattle.std.specs.List.{list_all, list_any};
ghost use Rattle.std.specs.Vec.{vec_capacity};
ghost use Rattle.scr_dates.specs.Civil.{IsDay};
ghost use Rattle.scr_dates.specs.Text.{day_of_text};
ghost use Rattle.scr_profile.specs.declared.limits.TheConstants as limits;
ghost use Rattle.scr_sheet.specs.Forms as formed;
ghost use Rattle.scr_fields.specs.FieldForms as forms_of;
ghost use Rattle.scr_fields.specs.Numbers.{number_value};
ghost use Rattle.scr_csv.specs.LineFields.{line_fields, is_printed, is_quote};
ghost use Rattle.scr_csv.specs.Parts.{parts, behind};

use scr_dates::{Day, parse_day};
use scr_fields::leading_number;
use scr_profile::MAX_FLOWS;
use scr_sheet::Name;
use std::alloc::{AllocError as NoMemory, Global};

/// How many bytes the text of a day has.
const DAY_LEN: usize = 10;

/// How many bytes most payments have at least: a day, two commas and an amount of five digits.
const PAYMENT_LEN: usize = 17;

/// The fields that are left of a text in which a certain byte stands between two fields, and nowhere
/// else; where none is left, there is no text.
#[derive(Clone, Copy)]
pub struct Source<'a> {
    end: u8,
    rest: Option<&'a [u8]>,
    // It is neither a digit nor a dash.
    ghost low: { end < 45 },
}

impl<'a> Source<'a> {
    ghost use Rattle.scr_csv.specs.Sources.{fields_in};
    ghost use Rattle.scr_csv.specs.Parts.{first_as, first_pair};

    /// The fields of a line that has no double quote. An empty line has none.
    pub fn of_text(text: &'a [u8]) -> Source<'a>
        requires printed { list_all is_printed text.now ≡ true }
        requires unquoted { list_any is_quote text.now ≡ false }
        ensures { fields_in result ≡ line_fields text.now }
    {
        if text.is_empty() {
            return Source {
                end: b',',
                rest: None,
            };
        }
        Source {
            end: b',',
            rest: Some(text),
        }
    }

    /// What stands between the newlines of a text.
    pub fn of_copy(copy: &'a [u8]) -> Source<'a>
        ensures { fields_in result ≡ parts 10 copy.now }
    {
        Source {
            end: b'\n',
            rest: Some(copy),
        }
    }

    /// Whether no field is left.
    pub fn is_at_end(self) -> bool
        ensures { IsTrue result ↔ (fields_in self.entry ≡ []) }
    {
        self.rest.is_none()
    }

    /// The day that the first field spells, and the fields after it. Its end is looked for behind ten bytes that spell
    /// one, and nowhere else.
    #[inline(always)]
    pub fn day(self) -> Option<(Day, Source<'a>)>
        ensures value { IfSome result
            (λ read. first_as day_of_text (fields_in self.entry) ≡ Some (read.0, fields_in read.1)) }
        ensures shorter { IfSome result
            (λ read. length (fields_in read.1) + 1 ≡ length (fields_in self.entry)) }
        ensures formed { IfSome result (λ read. IsDay read.0.number) }
    {
        let text = self.rest?;
        let day = parse_day(text.get(..DAY_LEN)?)?;
        let rest = behind_first(text, self.end, DAY_LEN)?;
        Some((
            day,
            Source {
                end: self.end,
                rest,
            },
        ))
    }

    /// The number that the first field spells, and the fields after it, where the number has no sign. Its end is looked
    /// for behind the digits in front, and nowhere else.
    #[inline(always)]
    pub fn number(self) -> Option<(i64, Source<'a>)>
        ensures value { IfSome result
            (λ read. first_as number_value (fields_in self.entry) ≡ Some (read.0, fields_in read.1)) }
        ensures shorter { IfSome result
            (λ read. length (fields_in read.1) + 1 ≡ length (fields_in self.entry)) }
        ensures formed { IfSome result (λ read. formed.IsNumber read.0) }
    {
        let text = self.rest?;
        let (number, digits) = leading_number(text)?;
        let rest = behind_first(text, self.end, digits)?;
        Some((
            number,
            Source {
                end: self.end,
                rest,
            },
        ))
    }

    /// The payment that the first two fields spell, and the fields after them.
    #[tactic(auto, using(crate::proofs::ListSteps::pair_of))]
    #[inline(always)]
    pub fn payment(self) -> Option<((Day, i64), Source<'a>)>
        ensures value { IfSome result
            (λ read. first_pair day_of_text number_value (fields_in self.entry) ≡ Some (read.0, fields_in read.1)) }
        ensures shorter { IfSome result
            (λ read. length (fields_in read.1) + 2 ≡ length (fields_in self.entry)) }
        ensures day { IfSome result (λ read. IsDay read.0.0.number) }
        ensures amount { IfSome result (λ read. formed.IsNumber read.0.1) }
    {
        let (day, rest) = self.day()?;
        let (amount, rest) = rest.number()?;
        Some(((day, amount), rest))
    }

    /// The name that the first field is, and the fields after it. Its end is looked for behind the bytes of a name in front, and
    /// nowhere else.
    pub fn name(self) -> Option<(Name, Source<'a>)>
        ensures value { IfSome result
            (λ read. first_as forms_of.name_of (fields_in self.entry) ≡ Some (read.0, fields_in read.1)) }
        ensures group { IfSome result
            (λ read. first_as forms_of.group_of (fields_in self.entry) ≡ Some (Some read.0, fields_in read.1)) }
        ensures shorter { IfSome result
            (λ read. length (fields_in read.1) + 1 ≡ length (fields_in self.entry)) }
        ensures formed { IfSome result (λ read. formed.IsName read.0) }
    {
        let text = self.rest?;
        let (name, count) = Name::leading(text)?;
        let rest = behind_first(text, self.end, count)?;
        Some((
            name,
            Source {
                end: self.end,
                rest,
            },
        ))
    }

    /// An empty list with room for the payments that are left, of so many bytes each, and for no more than are kept.
    pub fn room(self, alloc: Global) -> Result<Vec<(Day, i64)>, NoMemory>
        ensures none { IfOk result (λ list. list.items ≡ []) }
        ensures kept { IfOk result (λ list. vec_capacity list ≤ limits.MAX_FLOWS + 1) }
    {
        let payments = match self.rest {
            Some(text) => text.len() / PAYMENT_LEN + 1,
            None => 0,
        };
        Vec::with_capacity(alloc, payments.min(MAX_FLOWS as usize + 1))
    }

    /// The first field, and those after it.
    pub fn first(self) -> Option<(&'a [u8], Source<'a>)>
        ensures none { IfNone result (fields_in self.entry ≡ []) }
        ensures some { IfSome result
            (λ first. fields_in self.entry ≡ first.0.now ∷ fields_in first.1) }
    {
        let (field, rest) = first_field(self.rest?, self.end);
        Some((
            field,
            Source {
                end: self.end,
                rest,
            },
        ))
    }
}

/// What follows a first field of so many bytes, none of which ends a field. None where the field has more.
fn behind_first(text: &[u8], end: u8, count: usize) -> Option<Option<&[u8]>>
    requires within { count ≤ length text.now }
    requires inside { list_any (λ b. b == end) (take count text.now) ≡ false }
    ensures { IfSome result (λ rest. parts end text.now ≡ take count text.now ∷ behind end rest) }
{
    if count == text.len() {
        Some(None)
    } else if text[count] == end {
        Some(Some(&text[count + 1..]))
    } else {
        None
    }
}

/// The first field, and what follows the byte that ends it.
fn first_field(text: &[u8], end: u8) -> (&[u8], Option<&[u8]>)
    ensures { parts end text.now ≡ result.0.now ∷ behind end result.1 }
{
    match first_end(text, end) {
        Some(at) => (&text[..at], Some(&text[at + 1..])),
        None => (text, None),
    }
}

/// The place of the first byte that ends a field.
fn first_end(text: &[u8], end: u8) -> Option<usize>
    ensures place { result ≡ position (λ b. b == end) text.now }
    ensures within { IfSome result (λ at. at < length text.now) }
{
    text.iter().position(|b| *b == end)
}
