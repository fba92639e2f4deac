//! A certificate as far as it was read.

ghost use Rattle.std.specs.Prelude.{◌≡◌, [], IfOk, OnOk};
ghost use Rattle.plan_checker.specs.Graph.{IsGraph};
ghost use Rattle.plan_checker.specs.inner.Reading.{AddsRow};

use crate::charges::Charges;
use crate::graph::Graph;
use crate::plan::Plan;
use crate::row::Row;
use crate::vertex::Vertex;
use plain_data::Items;
use std::alloc::{AllocError, Global};

/// The lines of vertices that were read, by columns.
#[derive(Drop)]
pub struct Draft {
    pub vertices: Items<Vertex>,
    pub plan: Plan,
    pub charges: Charges,
}

impl Draft {
    pub fn new(alloc: Global) -> Draft
        ensures vertices { result.vertices ≡ [] }
        ensures marks { result.plan.marks ≡ [] }
        ensures charges { result.charges
            ≡ record { enter = []; through = []; pay = []; pass = [] } }
    {
        Draft {
            vertices: Items::new(alloc),
            plan: Plan {
                marks: Items::new(alloc),
            },
            charges: Charges {
                enter: Items::new(alloc),
                through: Items::new(alloc),
                pay: Items::new(alloc),
                pass: Items::new(alloc),
            },
        }
    }

    /// Adds what the next line says.
    pub fn push(&mut self, row: Row) -> Result<(), AllocError>
        ensures { OnOk result (AddsRow self.old self.new row) }
    {
        self.vertices.push(row.job)?;
        self.plan.marks.push(row.mark)?;
        self.charges.enter.push(row.enter)?;
        self.charges.through.push(row.through)?;
        self.charges.pay.push(row.pay)?;
        self.charges.pass.push(row.amounts)
    }

    /// The certificate, once all of it was read.
    pub fn certificate(self, alloc: Global) -> Result<(Graph, Plan, Charges), AllocError>
        requires { IsGraph self.vertices }
        ensures { IfOk result (λ read. (read.0 ≡ self.vertices) × (read.1 ≡ self.plan)
            × (read.2 ≡ self.charges)) }
    {
        let Draft {
            vertices,
            plan,
            charges,
        } = self;
        Ok((Graph::of(alloc, vertices)?, plan, charges))
    }
}
