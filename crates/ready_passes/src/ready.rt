//! A pass that is ready to be run.

ghost use Rattle.std.specs.Prelude.{◌≡◌, IfOk};
ghost use Rattle.conversion_target.specs.Targets.{target_of};
ghost use Rattle.pattern_model.specs.PassTable.{pass_of, patterns_of};
ghost use Rattle.pass_targets.specs.Known.{pass_target};
ghost use Rattle.unit_choices.specs.Orders.{InOrder};

use choice_code::Pass;
use conversion_target::Target;
use legal_graph::Graph;
use pass_rows::PassRows;
use pass_targets::target_of_pass;
use pipeline_text::PassName;
use row_code::Rows;
use std::alloc::Global;
use tree_model::NoMemory;

/// A pass with its rows, its target and the graph of both.
#[derive(Drop)]
pub struct ReadyPass {
    pass: PassName,
    rows: PassRows,
    target: Target,
    graph: Graph,
    pub ghost rows_are: { rows.pass ≡ pass },
    pub ghost target_is: { target_of target ≡ pass_target pass },
    pub ghost in_order: { InOrder graph (pass_target pass) (patterns_of (pass_of pass)) },
}

impl ReadyPass {
    /// The pass with its tables.
    pub fn new(alloc: Global, pass: PassName) -> Result<ReadyPass, NoMemory>
        ensures { IfOk result (λ p. p.pass ≡ pass) }
    {
        let rows = PassRows::new(alloc, pass)?;
        let target = target_of_pass(alloc, pass)?;
        let graph = target.graph(alloc, rows.infos())?;
        Ok(ReadyPass {
            pass,
            rows,
            target,
            graph,
        })
    }

    /// The pass.
    pub fn pass(&self) -> PassName
        ensures { result ≡ self.now.pass }
    {
        self.pass
    }

    /// The tables, where an index has so many bits.
    pub fn tables(&self, bits: u32) -> Pass<'_, PassRows>
        ensures set { result.set.now ≡ self.now.rows }
        ensures target { result.target.now ≡ self.now.target }
        ensures graph { result.graph.now ≡ self.now.graph }
        ensures bits { result.bits ≡ bits }
    {
        Pass {
            set: &self.rows,
            target: &self.target,
            graph: &self.graph,
            bits,
        }
    }
}
