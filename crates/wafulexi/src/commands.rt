//! The commands, each in a module of its own.
mod class_list;
mod inspect;
mod node_list;

use crate::failures::Failure;
use crate::usage::USAGE;
use crate::words::Command;

pub fn run(rt: &HostRuntime, command: Command) -> Result<(), Failure> {
    match command {
        Command::Help => rt.println(USAGE).map_err(Failure::Unwritten),
        Command::Inspect(source) => inspect::inspect(rt, source),
        Command::Nodes(source) => node_list::nodes(rt, source),
        Command::Classes(cutting) => class_list::classes(rt, cutting),
    }
}
