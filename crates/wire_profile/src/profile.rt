//! Profiles.
ghost use Rattle.std.specs.Prelude.{◌≡◌, ◌<◌, length};
ghost use Rattle.tl_types.specs.Seen.{view};
ghost use Rattle.tl_plan.specs.PlanLaws.{IsPlanOf};
ghost use Rattle.wire_profile.specs.Faults.{AnswersProfile};
ghost use Rattle.wire_profile.specs.Indexes.{number_at};
ghost use Rattle.wire_profile.specs.Profiles.{IsProfile, root_shapes};
ghost use Rattle.wire_profile.specs.SpelledForms.{owned, placed};

use crate::fault::ProfileFault;
use crate::layout::{Layout, number_at};
use crate::planning::plan_of;
use crate::renaming::rename;
use crate::tables::table_of;
use std::alloc::Global;
use std::marker::Model;
use tl_plan::Plan;
use tl_schema::Schema;
use tl_types::Value;
use wire_forms::numbers::NO_FORM;

/// A schema that has the forms of the protocol, and the plan of its frames, steps and saved clients.
pub struct Profile<'s> {
    layout: Layout<'s>,
    // The form of each declaration.
    table: Vec<u32>,
    plan: Plan<'s>,
}

// By hand, so that each exit of an owner has one call to prove.
impl Drop for Profile<'_> {
    fn drop(self) {
        let Profile {
            layout: _,
            table: _,
            plan: _,
        } = self;
    }
}

impl<'s> Model for Profile<'s> {
    ghost use Rattle.wire_profile.specs.Indexes.{ProfileView};
    ghost use Rattle.wire_profile.specs.inner.ProfileCodes.{profile_code};
    ghost use Rattle.wire_profile.specs.inner.Insides.{IsWhole};

    ghost Value = { ProfileView };

    ghost coded = { profile_code };

    ghost view = { λ p. p.layout };

    ghost invariant = { λ p. IsWhole p.layout p.table.items p.plan };
}

impl<'s> Profile<'s> {
    /// The profile that a schema is. It takes memory for its plan, and for the form of each declaration.
    pub fn of(alloc: Global, schema: &'s Schema) -> Result<Profile<'s>, ProfileFault>
        ensures answer { AnswersProfile schema.now result }
    {
        let layout = Layout::of(alloc, schema)?;
        layout.check(alloc)?;
        let table = table_of(alloc, &layout)?;
        let plan = plan_of(alloc, schema, &layout)?;
        Ok(Profile {
            layout,
            table,
            plan,
        })
    }

    /// Its schema.
    pub fn schema(&self) -> &Schema
        ensures schema { result.now ≡ self.now.schema }
        ensures sound { IsProfile self.now }
    {
        self.layout.schema
    }

    /// The plan of three roots: a frame, a step and a saved client, boxed.
    pub fn plan(&self) -> &Plan<'s>
        ensures plan { IsPlanOf self.now.schema (root_shapes self.now) result.now }
        ensures sound { IsProfile self.now }
    {
        &self.plan
    }

    /// The index of a form's declaration; of no form `NO_FORM`.
    pub fn index(&self, form: u32) -> u32
        ensures { result ≡ number_at self.now.indexes form }
    {
        number_at(&self.layout.indexes, form)
    }

    /// Puts the number of its form in place of each declaration's index; where that is of no form, `NO_FORM`.
    pub fn put_forms(&self, value: &mut Value)
        ensures { view value.new ≡ owned self.now (view value.old) }
    {
        rename(value, &self.table, NO_FORM);
    }

    /// Puts the index of its declaration in place of each form's number.
    pub fn put_indexes(&self, value: &mut Value)
        ensures { view value.new ≡ placed self.now (view value.old) }
    {
        rename(value, &self.layout.indexes, NO_FORM);
    }
}
