// The order that is being read.
ghost use Rattle.std.specs.Prelude.{◌≡◌, Ok};
ghost use Rattle.line.specs.declared.instruction.Instruction.TheVariants.{Base, Edges};
ghost use Rattle.order.specs.Drafts.{empty_sheet, list_only, ended, Taken, Checked, Answered};

use crate::fault::Fault;
use crate::report::Report;
use line::expected::Expected;
use line::instruction::{Instruction, Kind};
use point::Vec3A;
use shape::list_base::ListBase;
use shape::square_base::SquareBase;
use shape::triangle::Triangle;
use shape::triangle_base::TriangleBase;
use std::alloc::Global;
use std::marker::Model;

// What was read of the order so far; contracts see it as a sheet.
#[derive(Drop)]
pub struct Draft {
    kind: Option<Kind>,
    edges: Option<usize>,
    points: Vec<Vec3A>,
    triangles: Vec<Triangle>,
}

impl Model for Draft {
    ghost use Rattle.std.specs.Prelude.{vec_items};
    ghost use Rattle.order.specs.Drafts.{Sheet};

    ghost Value = { Sheet };

    ghost view = { λ d. record { kind = d.kind; edges = d.edges; points = vec_items d.points; triangles = vec_items d.triangles } };
}

impl Draft {
    pub fn new(alloc: Global) -> Draft
        ensures { result ≡ empty_sheet }
    {
        Draft {
            kind: None,
            edges: None,
            points: Vec::new(alloc),
            triangles: Vec::new(alloc),
        }
    }

    fn begin(&mut self, kind: Kind) -> Result<(), Expected>
        ensures { Taken self.old (Base kind) result self.new }
    {
        if self.kind.is_some() {
            return Err(Expected::CheckFirst);
        }
        self.kind = Some(kind);
        Ok(())
    }

    // The order has a list base, as edges, points and triangles need it.
    fn expect_list(&self) -> Result<(), Expected>
        ensures { result ≡ list_only self.now.kind (Ok tt) }
    {
        match self.kind {
            None => Err(Expected::BaseFirst),
            Some(Kind::List) => Ok(()),
            Some(_) => Err(Expected::ListBase),
        }
    }

    fn set_edges(&mut self, edges: usize) -> Result<(), Expected>
        ensures { Taken self.old (Edges edges) result self.new }
    {
        self.expect_list()?;
        if self.edges.is_some() {
            return Err(Expected::OneEdges);
        }
        self.edges = Some(edges);
        Ok(())
    }

    // Answers, and makes room for the next order.
    fn check(&mut self) -> Result<Report, Expected>
        ensures { Checked self.old result self.new }
    {
        let report = match self.kind.ok_or(Expected::BaseFirst)? {
            Kind::Triangle => Report::on(Kind::Triangle, &TriangleBase),
            Kind::Square => Report::on(Kind::Square, &SquareBase),
            Kind::List => {
                let edges = self.edges.ok_or(Expected::EdgesFirst)?;
                let base = ListBase {
                    points: self.points.as_slice(),
                    triangles: self.triangles.as_slice(),
                    edges,
                };
                Report::on(Kind::List, &base)
            }
        };
        self.clear();
        Ok(report)
    }

    fn clear(&mut self)
        ensures { self.new ≡ empty_sheet }
    {
        self.kind = None;
        self.edges = None;
        self.points.clear();
        self.triangles.clear();
    }

    // What the instruction makes of the order; a check is answered.
    pub fn take(&mut self, instruction: Instruction) -> Result<Option<Report>, Fault>
        ensures { Answered self.old instruction result self.new }
    {
        match instruction {
            Instruction::Base(kind) => self.begin(kind)?,
            Instruction::Edges(edges) => self.set_edges(edges)?,
            Instruction::Point(point) => {
                self.expect_list()?;
                self.points.push(point)?;
            }
            Instruction::Triangle(triangle) => {
                self.expect_list()?;
                self.triangles.push(triangle)?;
            }
            Instruction::Check => return Ok(Some(self.check()?)),
        }
        Ok(None)
    }

    // An order that is begun is checked before the input ends.
    pub fn expect_end(&self) -> Result<(), Expected>
        ensures { result ≡ ended self.now.kind }
    {
        match self.kind {
            None => Ok(()),
            Some(_) => Err(Expected::CheckBeforeEnd),
        }
    }
}
