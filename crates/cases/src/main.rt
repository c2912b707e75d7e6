// Puts the published cases of document 01 that are not marked * through the public functions, beside case A and a
// refusal of each number, and prints a line for each. The output that `rt ci` compares with (`stdout`) is not this
// program's: the plain implementation of document 01 in rust/reference writes it (`make outputs`). The two share the
// list of cases and the form of the lines.
#![tactic(auto)]

mod answers;
mod case_a;
mod edges;
mod inputs;
mod refusals;
mod show;
mod splittings;

use std::io;

fn main(rt: HostRuntime) -> io::Result<()> {
    case_a::show_records(&rt)?;
    case_a::show_splittings(&rt)?;
    case_a::show_questions(&rt)?;
    edges::show_sizes(&rt)?;
    edges::show_counts(&rt)?;
    refusals::show_of_casebooks(&rt)?;
    refusals::show_of_tables(&rt)?;
    refusals::show_of_calls(&rt)?;
    refusals::show_of_halves(&rt)
}
