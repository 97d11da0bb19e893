//! Process bodies, which all instances of an architecture share.

ghost use Rattle.std.specs.Prelude.{◌≡◌};
ghost use Rattle.std.specs.Bool.{Decides};

use crate::held::Held;
use crate::statement::{Statement, same_statements};
use sqlite_items::Items;
use std::alloc::{AllocError, Global};
use std::marker::Model;
use std::sync::Arc;

#[derive(Drop)]
struct Parts {
    objects: usize,
    drivers: usize,
    variables: Items<Held>,
    statements: Items<Statement>,
}

/// The body of a process, which its copies share.
///
/// It refers to the ports and signals of its architecture, and to its own drivers and variables, by
/// position. All references are in range, and each variable is used with its own type.
pub struct Body {
    parts: Arc<Parts, Global>,
}

/// Written by hand so that crates which drop a body need no proof about its contents.
impl Drop for Body {
    fn drop(self) {
        let Body { parts } = self;
        drop(parts);
    }
}

impl Model for Body {
    ghost use Rattle.std.specs.Prelude.{◌≡◌, true};
    ghost use Rattle.std.specs.Arc.{arc_value};
    ghost use Rattle.std.specs.Coded.{codes};
    ghost use Rattle.sim_flat_design.specs.Bodies.{Body, fits};
    ghost use Rattle.sim_flat_design.specs.contracts.expression.LogicExpression as logic;
    ghost use Rattle.sim_flat_design.specs.contracts.expression.BooleanExpression as boolean;
    ghost use Rattle.sim_flat_design.specs.contracts.statement.Statement as statement;

    ghost Value = { Body };

    ghost coded = { Prim.hlevel (codes, logic.the_row.coded, boolean.the_row.coded, statement.the_row.coded) };

    ghost view = { λ b. let p = arc_value b.parts in
        record { objects = p.objects; drivers = p.drivers; variables = p.variables; statements = p.statements } };

    ghost invariant = { λ b. let p = arc_value b.parts in
        fits (record { objects = p.objects; drivers = p.drivers; variables = p.variables; statements = p.statements }) ≡ true };
}

impl Body {
    ghost use Rattle.std.specs.Prelude.{◌≡◌, true, IfOk};
    ghost use Rattle.std.specs.Bool.{Decides};
    ghost use Rattle.sim_flat_design.specs.Bodies.{fits};

    /// A body with these statements, for this number of ports and signals and of drivers, and with
    /// variables that have these initial values.
    pub fn new(
        alloc: Global,
        objects: usize,
        drivers: usize,
        variables: Items<Held>,
        statements: Items<Statement>,
    ) -> Result<Body, AllocError>
        requires { fits (record { objects = objects; drivers = drivers; variables = variables; statements = statements }) ≡ true }
        ensures { IfOk result (λ b. b ≡ record { objects = objects; drivers = drivers; variables = variables; statements = statements }) }
    {
        let parts = Arc::new(
            alloc,
            Parts {
                objects,
                drivers,
                variables,
                statements,
            },
        )?;
        Ok(Body { parts })
    }

    /// The same body, shared, in constant time.
    pub fn try_copy(&self) -> Result<Body, AllocError>
        ensures { IfOk result (λ b. b ≡ self.now) }
    {
        let parts = Arc::try_clone(&self.parts)?;
        Ok(Body { parts })
    }

    /// The number of ports and signals of its architecture.
    pub fn objects(&self) -> usize
        ensures { result ≡ self.now.objects }
    {
        self.parts.objects
    }

    /// The number of its drivers.
    pub fn drivers(&self) -> usize
        ensures { result ≡ self.now.drivers }
    {
        self.parts.drivers
    }

    /// The initial values of its variables.
    pub fn variables(&self) -> &[Held]
        ensures { result.now ≡ self.now.variables }
    {
        self.parts.variables.as_slice()
    }

    /// Its statements, in order.
    pub fn statements(&self) -> &[Statement]
        ensures value { result.now ≡ self.now.statements }
        ensures fits { fits (record {
          objects = self.now.objects;
          drivers = self.now.drivers;
          variables = self.now.variables;
          statements = result.now;
        }) ≡ true }
    {
        self.parts.statements.as_slice()
    }

    /// Whether the two bodies are equal.
    pub fn same(&self, other: &Body) -> bool
        ensures { Decides result (self.now ≡ other.now) }
    {
        self.objects() == other.objects()
            && self.drivers() == other.drivers()
            && same_values(self.variables(), other.variables())
            && same_statements(self.statements(), other.statements())
    }
}

/// Whether these are the same values, in the same order.
fn same_values(values: &[Held], others: &[Held]) -> bool
    ensures { Decides result (values.now ≡ others.now) }
{
    values == others
}
