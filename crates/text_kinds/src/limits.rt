//! What passes a limit.

ghost use Rattle.std.specs.Prelude.{◌≡◌, ◌+◌, ◌<◌, ◌^◌, length};
ghost use Rattle.text_scopes.specs.Bodies.{class_in};
ghost use Rattle.text_kinds.specs.Tallies.{first_over, passes};

use crate::tally::{
    Tally, begins_block, counted, is_operand, names_function, names_operation, opens_region,
    region_depth,
};
use text_events::Event;
use text_scopes::{Body, Class};

/// What is limited.
#[derive(Clone, Copy, Drop)]
pub enum Limit {
    /// 64 regions, one in another; the module's has depth 1.
    RegionDepth,
    /// 65,536 functions.
    Functions,
    /// 4,096 blocks in a function.
    Blocks,
    /// 4,096 operands of an operation.
    Operands,
    /// 2^18 operations, but for the module.
    Operations,
}

/// The first event that passes the limit.
pub fn first_over(limit: Limit, classes: &[Class], events: &[Event]) -> Option<usize>
    requires { length events.now < 2 ^ 32 }
    ensures { result ≡ first_over limit (class_in classes.now) events.now }
{
    let mut tally = Tally {
        body: Body {
            within: 0,
            at_module: false,
        },
        fresh: false,
        functions: 0,
        operations: 0,
        blocks: 0,
        operands: 0,
    };
    for (index, event) in events.iter().enumerate() {
        if passes(limit, classes, tally, *event) {
            return Some(index);
        }
        tally = counted(classes, tally, *event, index);
    }
    None
}

fn passes(limit: Limit, classes: &[Class], tally: Tally, event: Event) -> bool
    requires { tally.body.within + 2 < 2 ^ 64 }
    ensures { result ≡ passes limit (class_in classes.now) tally event }
{
    match limit {
        Limit::RegionDepth => {
            if opens_region(event.place) {
                64 < region_depth(tally)
            } else {
                false
            }
        }
        Limit::Functions => {
            if names_function(classes, event) {
                65536 <= tally.functions
            } else {
                false
            }
        }
        Limit::Blocks => {
            if begins_block(tally, event.place) {
                4096 <= tally.blocks
            } else {
                false
            }
        }
        Limit::Operands => {
            if is_operand(event.place) {
                4096 <= tally.operands
            } else {
                false
            }
        }
        Limit::Operations => {
            if names_operation(classes, event) {
                262144 <= tally.operations
            } else {
                false
            }
        }
    }
}
