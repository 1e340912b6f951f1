//! Plans.
ghost use Rattle.std.specs.Prelude.{◌≡◌, ◌<◌, length};
ghost use Rattle.tl_plan.specs.Plans.{IsPlan, plan_of};
ghost use Rattle.tl_plan.specs.Seen.{ShowsAt};
ghost use Rattle.tl_plan.specs.inner.Nodes.{types_at};
ghost use Rattle.tl_plan.specs.inner.Walks.{IsMade};

use crate::instances::Instance;
use crate::queue::Queue;
use crate::table::Table;
use std::marker::Model;
use tl_schema::Schema;

/// The closed types that some types of a schema reach, by number; the first are those types, the roots.
pub struct Plan<'s> {
    schema: &'s Schema,
    roots: u32,
    table: Table,
    queue: Queue,
    instances: Vec<Instance>,
}

// By hand, so that each exit of an owner has one call to prove.
impl Drop for Plan<'_> {
    fn drop(self) {
        let Plan {
            schema: _,
            roots: _,
            table: _,
            queue: _,
            instances: _,
        } = self;
    }
}

impl<'s> Model for Plan<'s> {
    ghost use Rattle.tl_plan.specs.Plans.{PlanView, plan_of};
    ghost use Rattle.tl_plan.specs.inner.PlanCodes.{plan_code};
    ghost use Rattle.tl_plan.specs.inner.Nodes.{types_at};
    ghost use Rattle.tl_plan.specs.inner.Walks.{IsMade};

    ghost Value = { PlanView };

    ghost coded = { plan_code };

    ghost view = { λ p. plan_of p.schema.now p.roots (types_at p.table p.queue) };

    ghost invariant = { λ p. IsMade p.schema.now p.roots (types_at p.table p.queue) p.instances.items };
}

impl<'s> Plan<'s> {
    pub(crate) fn new(
        schema: &'s Schema,
        roots: u32,
        table: Table,
        queue: Queue,
        instances: Vec<Instance>,
    ) -> Plan<'s>
        requires { IsMade schema.now roots (types_at table queue) instances.items }
        ensures { result ≡ plan_of schema.now roots (types_at table queue) }
    {
        Plan {
            schema,
            roots,
            table,
            queue,
            instances,
        }
    }

    /// The schema of its types.
    pub fn schema(&self) -> &Schema
        ensures { result.now ≡ self.now.schema }
    {
        self.schema
    }

    /// The number of instances.
    pub fn count(&self) -> u32
        ensures count { result ≡ length self.now.instances }
        ensures sound { IsPlan self.now }
    {
        self.instances.len() as u32
    }

    /// The number of roots.
    pub fn roots(&self) -> u32
        ensures { result ≡ self.now.roots }
    {
        self.roots
    }

    /// The instance of root k.
    pub fn root(&self, k: u32) -> u32
        requires { k < self.now.roots }
        ensures root { result ≡ k }
        ensures within { result < length self.now.instances }
        ensures sound { IsPlan self.now }
    {
        prove!(k < self.roots);
        k
    }

    /// The instance with a number.
    pub fn instance(&self, i: u32) -> &Instance
        requires { i < length self.now.instances }
        ensures shows { ShowsAt self.now.instances i result.now }
        ensures sound { IsPlan self.now }
    {
        &self.instances[i as usize]
    }
}
