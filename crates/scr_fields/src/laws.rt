//! What the closed lists of words come to, and the texts of absorption keys.

ghost use Rattle.std.specs.Prelude.{◌≡◌, ◌≢◌, [], Some};
ghost use Rattle.scr_sheet.specs.Forms.{IsAbsorbKey};
ghost use Rattle.scr_fields.specs.FieldForms.{absorb_key_of};
ghost use Rattle.scr_fields.specs.KeyWords.{absorb_text};
ghost use Rattle.scr_fields.specs.Words as spec;
ghost use Rattle.scr_sheet.specs.declared.keys.Table.{Table};
ghost use Rattle.scr_profile.specs.declared.group_kind.GroupKind.{GroupKind};
ghost use Rattle.scr_sheet.specs.declared.rows.Class.{Class};
ghost use Rattle.scr_sheet.specs.declared.rows.LiabilityKind.{LiabilityKind};
ghost use Rattle.scr_sheet.specs.declared.keys.Projection.{Projection};
ghost use Rattle.scr_profile.specs.declared.set.Set.{Set};
ghost use Rattle.scr_sheet.specs.declared.keys.CatKey.{CatKey};
ghost use Rattle.scr_sheet.specs.declared.keys.AbsorbKey.{AbsorbKey};

#[tactic(auto, unfolding(crate::specs::Words::value_of))]
/// The word of each value of a closed list is read as that value, so no value is left out and no
/// two share a word.
pub fn words()
    ensures tables { (table : Table)
        → spec.value_of spec.table_word spec.all_tables (spec.table_word table) ≡ Some table }
    ensures group_kinds { (kind : GroupKind)
        → spec.value_of spec.group_kind_word spec.all_group_kinds (spec.group_kind_word kind)
        ≡ Some kind }
    ensures classes { (class : Class)
        → spec.value_of spec.class_word spec.all_classes (spec.class_word class) ≡ Some class }
    ensures liability_kinds { (kind : LiabilityKind)
        → spec.value_of spec.liability_kind_word spec.all_liability_kinds
        (spec.liability_kind_word kind) ≡ Some kind }
    ensures projections { (projection : Projection)
        → spec.value_of spec.projection_word spec.all_projections (spec.projection_word projection)
        ≡ Some projection }
    ensures sets { (set : Set) → spec.value_of spec.set_word spec.all_sets (spec.set_word set)
        ≡ Some set }
    ensures cat_keys { (key : CatKey)
        → spec.value_of spec.cat_key_word spec.all_cat_keys (spec.cat_key_word key) ≡ Some key }
    ensures scenarios { (key : AbsorbKey) → (spec.scenario_word key ≢ [])
        → spec.value_of spec.scenario_word spec.all_scenarios (spec.scenario_word key) ≡ Some key }
{}

#[tactic(auto, using(crate::proofs::AbsorbKeys::key_read))]
/// Every absorption key is read back from its text, those of currencies among them.
pub fn absorb_keys()
    ensures { (key : AbsorbKey) → IsAbsorbKey key → absorb_key_of (absorb_text key) ≡ Some key }
{}
