//! The fields of a record, read one after another in their forms.
#![tactic(auto, using(crate::proofs::Steps::formed_if), unfolding(crate::specs::Reading::field, crate::specs::Reading::next, crate::specs::Reading::only))]

ghost use Rattle.std.specs.Prelude.{◌≡◌, ◌≤◌, ◌↔◌, [], ◌∷◌, ◌++◌, length, take, IfOk, OnOk, IsTrue};
ghost use Rattle.std.specs.Prelude.{true, false};
ghost use Rattle.std.specs.List.{AllByRecursion, list_all, list_any};
ghost use Rattle.scr_dates.specs.Civil.{IsDay};
ghost use Rattle.scr_dates.specs.Text.{day_of_text};
ghost use Rattle.scr_profile.specs.Segments.{segments};
ghost use Rattle.scr_profile.specs.declared.limits.TheConstants as limits;
ghost use Rattle.scr_sheet.specs.Forms as formed;
ghost use Rattle.scr_fields.specs.FieldForms as forms_of;
ghost use Rattle.scr_fields.specs.Numbers.{number_value};
ghost use Rattle.scr_csv.specs.Kept.{kept_members};
ghost use Rattle.scr_csv.specs.Reading.{field, next, only, found_to, read_to, made, numbers_from};
ghost use Rattle.scr_csv.specs.Reading.{pairs_from, Answers};
ghost use Rattle.scr_csv.specs.LineFields.{line_fields, is_printed, is_quote};
ghost use Rattle.scr_csv.specs.Parts.{parts};
ghost use Rattle.scr_csv.specs.Verbs.{verb_word, all_verbs};
ghost use Rattle.scr_fields.specs.Words.{value_of, class_word, all_classes};

use crate::LineFault;
use crate::source::Source;
use crate::verb::{Verb, verb_of};
use scr_dates::{Day, parse_day};
use scr_fields::{Word, class, forms, read_number, value};
use scr_profile::{MAX_FLOWS, MAX_FUND_COMPONENTS, MAX_RATES, Set};
use scr_sheet::{AbsorbKey, Class, Components, Edit, Flows, Name, Rates};
use std::alloc::{AllocError as NoMemory, Global};
use std::marker::Model;

/// The fields that are still to be read, and the number of the first of them. The verb has number
/// 0.
#[derive(Drop)]
pub struct Fields<'a> {
    source: Source<'a>,
    number: u32,
}

impl<'a> Model for Fields<'a> {
    ghost use Rattle.std.specs.Prelude.{◌+◌, ◌≤◌, length};
    ghost use Rattle.scr_csv.specs.Reading.{Rest};
    ghost use Rattle.scr_csv.specs.Sources.{fields_in};

    ghost Value = { Rest };

    ghost view = { λ f. record { number = f.number; fields = fields_in f.source } };

    ghost invariant = { λ f. f.number + length (fields_in f.source) ≤ 67108865 };
}

impl<'a> Fields<'a> {
    /// The fields of a line of at most 64 MiB that has no double quote.
    pub fn of_text(text: &'a [u8]) -> Fields<'a>
        requires printed { list_all is_printed text.now ≡ true }
        requires unquoted { list_any is_quote text.now ≡ false }
        requires fits { length text.now ≤ 67108864 }
        ensures { result ≡ record { number = 0; fields = line_fields text.now } }
    {
        Fields {
            source: Source::of_text(text),
            number: 0,
        }
    }

    /// What stands between the newlines of a copy of such a line.
    pub fn of_copy(copy: &'a [u8]) -> Fields<'a>
        requires { length (parts 10 copy.now) ≤ 67108865 }
        ensures { result ≡ record { number = 0; fields = parts 10 copy.now } }
    {
        Fields {
            source: Source::of_copy(copy),
            number: 0,
        }
    }

    #[inline(always)]
    fn field(&mut self) -> Result<(u32, &'a [u8]), LineFault>
        ensures { found_to result self.new ≡ field self.old }
    {
        let number = self.number;
        let (field, rest) = self.source.first().ok_or(LineFault::Syntax(number))?;
        self.source = rest;
        self.number = number + 1;
        Ok((number, field))
    }

    /// A word of a closed list.
    pub fn word<W: Word>(&mut self) -> Result<W, LineFault>
        ensures { read_to result self.new ≡ next (value_of W.word_of W.all) self.old }
    {
        let (number, field) = self.field()?;
        value(field).ok_or(LineFault::Syntax(number))
    }

    /// The verb of the record.
    pub fn verb(&mut self) -> Result<Verb, LineFault>
        ensures { read_to result self.new ≡ next (value_of verb_word all_verbs) self.old }
    {
        let (number, field) = self.field()?;
        verb_of(field).ok_or(LineFault::Syntax(number))
    }

    /// The class of a security.
    pub fn class(&mut self) -> Result<Class, LineFault>
        ensures { read_to result self.new ≡ next (value_of class_word all_classes) self.old }
    {
        let (number, field) = self.field()?;
        class(field).ok_or(LineFault::Syntax(number))
    }

    #[inline(always)]
    pub fn date(&mut self) -> Result<Day, LineFault>
        ensures value { read_to result self.new ≡ next day_of_text self.old }
        ensures formed { IfOk result (λ day. IsDay day.number) }
    {
        if let Some((day, rest)) = self.source.day() {
            self.source = rest;
            self.number += 1;
            return Ok(day);
        }
        self.date_field()
    }

    // A field that is looked at once more, for its end. Few are, and their code would make the rest slow.
    #[inline(never)]
    fn date_field(&mut self) -> Result<Day, LineFault>
        ensures value { read_to result self.new ≡ next day_of_text self.old }
        ensures formed { IfOk result (λ day. IsDay day.number) }
    {
        let (number, field) = self.field()?;
        parse_day(field).ok_or(LineFault::Syntax(number))
    }

    pub fn currency(&mut self) -> Result<Name, LineFault>
        ensures value { read_to result self.new ≡ next forms_of.currency_of self.old }
        ensures formed { IfOk result formed.IsCurrency }
    {
        let (number, field) = self.field()?;
        match forms::currency(field) {
            Some(currency) => Ok(currency),
            None => Err(LineFault::Syntax(number)),
        }
    }

    pub fn name(&mut self) -> Result<Name, LineFault>
        ensures value { read_to result self.new ≡ next forms_of.name_of self.old }
        ensures formed { IfOk result formed.IsName }
    {
        if let Some((name, rest)) = self.source.name() {
            self.source = rest;
            self.number += 1;
            return Ok(name);
        }
        self.name_field()
    }

    #[inline(never)]
    fn name_field(&mut self) -> Result<Name, LineFault>
        ensures value { read_to result self.new ≡ next forms_of.name_of self.old }
        ensures formed { IfOk result formed.IsName }
    {
        let (number, field) = self.field()?;
        match forms::name(field) {
            Some(name) => Ok(name),
            None => Err(LineFault::Syntax(number)),
        }
    }

    pub fn group(&mut self) -> Result<Option<Name>, LineFault>
        ensures value { read_to result self.new ≡ next forms_of.group_of self.old }
        ensures formed { IfOk result formed.IsNameOrNone }
    {
        if let Some((name, rest)) = self.source.name() {
            self.source = rest;
            self.number += 1;
            return Ok(Some(name));
        }
        self.group_field()
    }

    #[inline(never)]
    fn group_field(&mut self) -> Result<Option<Name>, LineFault>
        ensures value { read_to result self.new ≡ next forms_of.group_of self.old }
        ensures formed { IfOk result formed.IsNameOrNone }
    {
        let (number, field) = self.field()?;
        match forms::group(field) {
            Some(group) => Ok(group),
            None => Err(LineFault::Syntax(number)),
        }
    }

    #[inline(always)]
    pub fn number(&mut self) -> Result<i64, LineFault>
        ensures value { read_to result self.new ≡ next number_value self.old }
        ensures formed { IfOk result formed.IsNumber }
    {
        if let Some((value, rest)) = self.source.number() {
            self.source = rest;
            self.number += 1;
            return Ok(value);
        }
        self.number_field()
    }

    #[inline(never)]
    fn number_field(&mut self) -> Result<i64, LineFault>
        ensures value { read_to result self.new ≡ next number_value self.old }
        ensures formed { IfOk result formed.IsNumber }
    {
        let (number, field) = self.field()?;
        read_number(field).ok_or(LineFault::Syntax(number))
    }

    pub fn step(&mut self) -> Result<Option<u8>, LineFault>
        ensures value { read_to result self.new ≡ next forms_of.step_of self.old }
        ensures formed { IfOk result formed.IsStepOrNone }
    {
        let (number, field) = self.field()?;
        forms::step(field).ok_or(LineFault::Syntax(number))
    }

    pub fn region(&mut self) -> Result<u8, LineFault>
        ensures value { read_to result self.new ≡ next forms_of.region_of self.old }
        ensures low { IfOk result (λ n. 1 ≤ n) }
        ensures high { IfOk result (λ n. n ≤ 18) }
    {
        let (number, field) = self.field()?;
        forms::region(field).ok_or(LineFault::Syntax(number))
    }

    pub fn absorb_key(&mut self) -> Result<AbsorbKey, LineFault>
        ensures value { read_to result self.new ≡ next forms_of.absorb_key_of self.old }
        ensures formed { IfOk result formed.IsAbsorbKey }
    {
        let (number, field) = self.field()?;
        forms::absorb_key(field).ok_or(LineFault::Syntax(number))
    }

    pub fn segment(&mut self, set: Set) -> Result<u8, LineFault>
        ensures value { read_to result self.new ≡ next (forms_of.segment_of set) self.old }
        ensures low { IfOk result (λ n. 1 ≤ n) }
        ensures high { IfOk result (λ n. n ≤ segments set) }
    {
        let (number, field) = self.field()?;
        forms::segment(field, set).ok_or(LineFault::Syntax(number))
    }

    /// Whether no field is left.
    pub fn is_at_end(&self) -> bool
        ensures { IsTrue result ↔ (self.now.fields ≡ []) }
    {
        self.source.is_at_end()
    }

    /// The record, where no field is left.
    #[inline(always)]
    pub fn only(&self, edit: Edit) -> Result<Edit, LineFault>
        requires { formed.Formed edit }
        ensures value { result ≡ only edit self.now }
        ensures formed { IfOk result formed.Formed }
    {
        if self.is_at_end() {
            Ok(edit)
        } else {
            Err(LineFault::Syntax(self.number))
        }
    }

    /// The fields that are left, each a number. Of too many one too many is kept.
    pub fn rates(&mut self, alloc: Global) -> Result<Rates, LineFault>
        ensures answer { Answers
            (made (kept_members limits.MAX_RATES) (numbers_from self.old.number self.old.fields)) result }
        ensures formed { IfOk result (AllByRecursion formed.IsNumber) }
    {
        let mut rates = Vec::new(alloc);
        'rates: while !self.is_at_end() {
            let rate = self.number()?;
            keep(&mut rates, MAX_RATES as usize + 1, rate).map_err(|_| LineFault::NoMemory)?;
        }
        Ok(Rates::new(rates))
    }

    /// The fields that are left, in pairs of a date and a number. Of too many pairs one too many is
    /// kept.
    pub fn flows(&mut self, alloc: Global) -> Result<Flows, LineFault>
        ensures answer { Answers (made (kept_members limits.MAX_FLOWS)
            (pairs_from day_of_text self.old.number self.old.fields)) result }
        ensures formed { IfOk result formed.AreFlows }
    {
        let Ok(mut flows) = self.source.room(alloc) else {
            return Err(LineFault::NoMemory);
        };
        // Most payments are read by the source alone, which is kept apart for as long.
        let mut source = self.source;
        let mut number = self.number;
        'payments: while let Some((payment, rest)) = source.payment() {
            keep(&mut flows, MAX_FLOWS as usize + 1, payment).map_err(|_| LineFault::NoMemory)?;
            source = rest;
            number += 2;
        }
        self.source = source;
        self.number = number;
        'flows: while !self.is_at_end() {
            let date = self.date()?;
            let amount = self.number()?;
            keep(&mut flows, MAX_FLOWS as usize + 1, (date, amount)).map_err(
                |_| LineFault::NoMemory,
            )?;
        }
        Ok(Flows::new(flows))
    }

    /// The fields that are left, in pairs of a name and a number. Of too many pairs one too many is
    /// kept.
    pub fn components(&mut self, alloc: Global) -> Result<Components, LineFault>
        ensures answer { Answers (made (kept_members limits.MAX_FUND_COMPONENTS)
            (pairs_from forms_of.name_of self.old.number self.old.fields)) result }
        ensures formed { IfOk result formed.AreComponents }
    {
        let mut components = Vec::new(alloc);
        'components: while !self.is_at_end() {
            let name = self.name()?;
            let weight = self.number()?;
            keep(
                &mut components,
                MAX_FUND_COMPONENTS as usize + 1,
                (name, weight),
            )
            .map_err(|_| LineFault::NoMemory)?;
        }
        Ok(Components::new(components))
    }
}

/// Puts a member behind those of a list, unless there are so many already: then it is let go.
fn keep<T: Copy>(list: &mut Vec<T>, most: usize, member: T) -> Result<(), NoMemory>
    requires { length list.old.items ≤ most }
    ensures { OnOk result (list.new.items ≡ take most (list.old.items ++ (member ∷ []))) }
{
    if list.len() < most {
        list.push(member).map_err(|_| NoMemory)?;
    }
    Ok(())
}
