//! How records are written.
#![tactic(auto, unfolding(crate::specs::RecordTexts::edit_text, crate::specs::RecordTexts::record_text, crate::specs::RecordTexts::next_field))]

ghost use Rattle.std.specs.Prelude.{◌≡◌, ◌++◌, ◌∷◌, [], map, flat_map, is_ok, OnOk, if◌then◌else◌};
ghost use Rattle.scr_fields.specs.Texts.{number_text, step_text, or_dash};
ghost use Rattle.scr_csv.specs.FieldTexts.{field_text};
ghost use Rattle.scr_csv.specs.RecordTexts.{edit_text, edit_verb, record_text, next_field};
ghost use Rattle.scr_csv.specs.RecordTexts.{flow_fields, component_fields};

use crate::verb::Verb;
use scr_dates::Day;
use scr_fields::{Word, push_absorb_key, push_day, push_number};
use scr_profile::GroupKind;
use scr_sheet::{AbsorbKey, Edit, LiabilityKind, Name, Projection, Table};
use std::alloc::{AllocError as NoMemory, Global};

/// What a field of a record says.
#[derive(Clone, Copy)]
pub enum Field {
    Word(&'static [u8]),
    Name(Name),
    Number(i64),
    Day(Day),
    Key(AbsorbKey),
}

/// Appends the line of a record without its end: its verb and its fields in their order, without
/// quotes, and each number without leading zeros. Where memory is refused, nothing is appended.
pub fn write_edit(alloc: Global, edit: &Edit, out: &mut Vec<u8>) -> Result<(), NoMemory>
    ensures { out.new.items
        ≡ (if is_ok result then out.old.items ++ edit_text edit.now else out.old.items) }
{
    let mut writer = Writer {
        alloc,
        text: Vec::new(alloc),
    };
    writer.edit(edit)?;
    out.extend_from_slice(&writer.text)
}

/// The line of a record, as far as it is written.
#[derive(Drop)]
struct Writer {
    alloc: Global,
    text: Vec<u8>,
}

impl Writer {
    fn edit(&mut self, edit: &Edit) -> Result<(), NoMemory>
        ensures { OnOk result (self.new.text.items ≡ self.old.text.items ++ edit_text edit.now) }
    {
        match edit {
            Edit::Asof { date, currency } => self.asof(*date, *currency),
            Edit::Curve { currency, rates } => self.curve(*currency, rates.as_slice()),
            Edit::Group { name, kind, step } => self.group(*name, *kind, *step),
            Edit::Security { .. } => self.security(edit),
            Edit::Flows { security, flows } => self.security_flows(*security, flows.as_slice()),
            Edit::Fund { name, components } => self.fund(*name, components.as_slice()),
            Edit::Hold { name, cents } => self.sum(Verb::Hold, &Field::Name(*name), *cents),
            Edit::Liability {
                name,
                kind,
                currency,
            } => self.liability(*name, *kind, *currency),
            Edit::LiabilityFlows {
                liability,
                projection,
                flows,
            } => self.liability_flows(*liability, *projection, flows.as_slice()),
            Edit::Absorb { key, cents } => self.sum(Verb::Absorb, &Field::Key(*key), *cents),
            Edit::Segment { .. } => self.segment(edit),
            Edit::Cat { key, cents } => self.sum(Verb::Cat, &Field::Word(key.word()), *cents),
            Edit::Lapse { set, cents } => self.sum(Verb::Lapse, &Field::Word(set.word()), *cents),
            Edit::Rein { .. } => self.rein(edit),
            Edit::Bank { name, group, cents } => self.debtor(Verb::Bank, *name, *group, &[*cents]),
            Edit::Due { overdue, other } => self.figures(Verb::Due, &[*overdue, *other]),
            Edit::Op { .. } => self.op(edit),
            Edit::Sym { millionths } => self.figures(Verb::Sym, &[*millionths]),
            Edit::Tax { millionths, cap } => self.figures(Verb::Tax, &[*millionths, *cap]),
            Edit::Fdb { cents } => self.figures(Verb::Fdb, &[*cents]),
            Edit::Intangible { cents } => self.figures(Verb::Intangible, &[*cents]),
            Edit::Remove { table, name } => self.removal(*table, *name),
        }
    }

    fn asof(&mut self, date: Day, currency: Name) -> Result<(), NoMemory>
        ensures { OnOk result
            (self.new.text.items ≡ self.old.text.items ++ edit_text (Edit.Asof date currency)) }
    {
        self.line(Verb::Asof, &[Field::Day(date), Field::Name(currency)])
    }

    fn curve(&mut self, currency: Name, rates: &[i64]) -> Result<(), NoMemory>
        ensures { OnOk result
            (self.new.text.items ≡ self.old.text.items ++ edit_text (Edit.Curve currency rates.now)) }
    {
        self.line(Verb::Curve, &[Field::Name(currency)])?;
        self.numbers(rates)
    }

    fn group(&mut self, name: Name, kind: GroupKind, step: Option<u8>) -> Result<(), NoMemory>
        ensures { OnOk result
            (self.new.text.items ≡ self.old.text.items ++ edit_text (Edit.Group name kind step)) }
    {
        let kind = Field::Word(kind.word());
        self.line(Verb::Group, &[Field::Name(name), kind, step_field(step)])
    }

    fn security(&mut self, edit: &Edit) -> Result<(), NoMemory>
        requires { edit_verb edit.now ≡ Verb.Security }
        ensures { OnOk result (self.new.text.items ≡ self.old.text.items ++ edit_text edit.now) }
    {
        match edit {
            Edit::Security {
                name,
                class,
                group,
                currency,
                duration,
            } => {
                let fields = [
                    Field::Name(*name),
                    Field::Word(class.word()),
                    group_field(*group),
                    Field::Name(*currency),
                    Field::Number(*duration),
                ];
                self.line(Verb::Security, &fields)
            }
            _ => unreachable!(),
        }
    }

    fn security_flows(&mut self, security: Name, flows: &[(Day, i64)]) -> Result<(), NoMemory>
        ensures { OnOk result
            (self.new.text.items ≡ self.old.text.items ++ edit_text (Edit.Flows security flows.now)) }
    {
        self.line(Verb::Flows, &[Field::Name(security)])?;
        self.flows(flows)
    }

    fn fund(&mut self, name: Name, components: &[(Name, i64)]) -> Result<(), NoMemory>
        ensures { OnOk result
            (self.new.text.items ≡ self.old.text.items ++ edit_text (Edit.Fund name components.now)) }
    {
        self.line(Verb::Fund, &[Field::Name(name)])?;
        self.components(components)
    }

    /// A record of what a sum is of, and the sum.
    fn sum(&mut self, verb: Verb, subject: &Field, cents: i64) -> Result<(), NoMemory>
        ensures { OnOk result (self.new.text.items ≡ self.old.text.items
            ++ record_text verb (field_text subject.now ∷ number_text cents ∷ [])) }
    {
        self.text.extend_from_slice(verb.word())?;
        self.field(subject)?;
        self.field(&Field::Number(cents))
    }

    fn liability(&mut self, name: Name, kind: LiabilityKind, currency: Name) -> Result<(), NoMemory>
        ensures { OnOk result
            (self.new.text.items ≡ self.old.text.items ++ edit_text (Edit.Liability name kind currency)) }
    {
        let kind = Field::Word(kind.word());
        self.line(
            Verb::Liability,
            &[Field::Name(name), kind, Field::Name(currency)],
        )
    }

    fn liability_flows(
        &mut self,
        liability: Name,
        projection: Projection,
        flows: &[(Day, i64)],
    ) -> Result<(), NoMemory>
        ensures { OnOk result (self.new.text.items ≡ self.old.text.items
            ++ edit_text (Edit.LiabilityFlows liability projection flows.now)) }
    {
        let projection = Field::Word(projection.word());
        self.line(Verb::LiabilityFlows, &[Field::Name(liability), projection])?;
        self.flows(flows)
    }

    fn segment(&mut self, edit: &Edit) -> Result<(), NoMemory>
        requires { edit_verb edit.now ≡ Verb.Segment }
        ensures { OnOk result (self.new.text.items ≡ self.old.text.items ++ edit_text edit.now) }
    {
        match edit {
            Edit::Segment {
                set,
                number,
                region,
                premium,
                reserve,
            } => {
                let (number, region) = (i64::from(*number), i64::from(*region));
                self.line(Verb::Segment, &[Field::Word(set.word())])?;
                self.numbers(&[number, region, *premium, *reserve])
            }
            _ => unreachable!(),
        }
    }

    fn rein(&mut self, edit: &Edit) -> Result<(), NoMemory>
        requires { edit_verb edit.now ≡ Verb.Rein }
        ensures { OnOk result (self.new.text.items ≡ self.old.text.items ++ edit_text edit.now) }
    {
        match edit {
            Edit::Rein {
                name,
                group,
                recoverables,
                mitigation,
                collateral,
            } => {
                let figures = [*recoverables, *mitigation, *collateral];
                self.debtor(Verb::Rein, *name, *group, &figures)
            }
            _ => unreachable!(),
        }
    }

    /// A record of a counterparty, its group and figures.
    fn debtor(
        &mut self,
        verb: Verb,
        name: Name,
        group: Name,
        figures: &[i64],
    ) -> Result<(), NoMemory>
        ensures { OnOk result (self.new.text.items ≡ self.old.text.items
            ++ record_text verb (name ∷ group ∷ map number_text figures.now)) }
    {
        self.line(verb, &[Field::Name(name), Field::Name(group)])?;
        self.numbers(figures)
    }

    fn op(&mut self, edit: &Edit) -> Result<(), NoMemory>
        requires { edit_verb edit.now ≡ Verb.Op }
        ensures { OnOk result (self.new.text.items ≡ self.old.text.items ++ edit_text edit.now) }
    {
        match edit {
            Edit::Op {
                tpl,
                tpul,
                tpn,
                el,
                eul,
                pel,
                peul,
                en,
                pen,
                expul,
            } => {
                let figures = [*tpl, *tpul, *tpn, *el, *eul, *pel, *peul, *en, *pen, *expul];
                self.figures(Verb::Op, &figures)
            }
            _ => unreachable!(),
        }
    }

    fn removal(&mut self, table: Table, name: Name) -> Result<(), NoMemory>
        ensures { OnOk result
            (self.new.text.items ≡ self.old.text.items ++ edit_text (Edit.Remove table name)) }
    {
        self.line(
            Verb::Remove,
            &[Field::Word(table.word()), Field::Name(name)],
        )
    }

    /// A verb and the fields after it.
    fn line(&mut self, verb: Verb, fields: &[Field]) -> Result<(), NoMemory>
        ensures { OnOk result (self.new.text.items ≡ self.old.text.items
            ++ record_text verb (map field_text fields.now)) }
    {
        self.text.extend_from_slice(verb.word())?;
        for field in fields {
            self.field(field)?;
        }
        Ok(())
    }

    /// A verb and the figures after it.
    fn figures(&mut self, verb: Verb, figures: &[i64]) -> Result<(), NoMemory>
        ensures { OnOk result (self.new.text.items ≡ self.old.text.items
            ++ record_text verb (map number_text figures.now)) }
    {
        self.text.extend_from_slice(verb.word())?;
        self.numbers(figures)
    }

    fn numbers(&mut self, numbers: &[i64]) -> Result<(), NoMemory>
        ensures { OnOk result (self.new.text.items ≡ self.old.text.items
            ++ flat_map next_field (map number_text numbers.now)) }
    {
        for number in numbers {
            self.field(&Field::Number(*number))?;
        }
        Ok(())
    }

    fn flows(&mut self, flows: &[(Day, i64)]) -> Result<(), NoMemory>
        ensures { OnOk result
            (self.new.text.items ≡ self.old.text.items ++ flat_map next_field (flow_fields flows.now)) }
    {
        for (day, amount) in flows {
            self.field(&Field::Day(*day))?;
            self.field(&Field::Number(*amount))?;
        }
        Ok(())
    }

    fn components(&mut self, components: &[(Name, i64)]) -> Result<(), NoMemory>
        ensures { OnOk result (self.new.text.items ≡ self.old.text.items
            ++ flat_map next_field (component_fields components.now)) }
    {
        for (name, weight) in components {
            self.field(&Field::Name(*name))?;
            self.field(&Field::Number(*weight))?;
        }
        Ok(())
    }

    /// A comma and the field.
    fn field(&mut self, field: &Field) -> Result<(), NoMemory>
        ensures { OnOk result
            (self.new.text.items ≡ self.old.text.items ++ next_field (field_text field.now)) }
    {
        self.text.push(b',')?;
        match field {
            Field::Word(word) => self.text.extend_from_slice(word),
            Field::Name(name) => self.text.extend_from_slice(name.as_bytes()),
            Field::Number(number) => push_number(self.alloc, *number, &mut self.text),
            Field::Day(day) => push_day(self.alloc, *day, &mut self.text),
            Field::Key(key) => push_absorb_key(self.alloc, &mut self.text, *key),
        }
    }
}

fn step_field(step: Option<u8>) -> Field
    ensures { field_text result ≡ step_text step }
{
    match step {
        Some(step) => Field::Number(i64::from(step)),
        None => Field::Word(b"-"),
    }
}

fn group_field(group: Option<Name>) -> Field
    ensures { field_text result ≡ or_dash group }
{
    match group {
        Some(name) => Field::Name(name),
        None => Field::Word(b"-"),
    }
}
