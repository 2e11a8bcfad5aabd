use gc_graph::Source;
use gc_trace::{read_trace, run_trace};
use gc_world::World;
use std::alloc::Global;
use std::test::Fail;

/// Returns the world that has run the text's events.
pub fn run_of(alloc: Global, text: &[u8]) -> Result<World, Fail> {
    let trace = read_trace(alloc, &mut Source::new(text))?;
    Ok(run_trace(alloc, &trace)?)
}
