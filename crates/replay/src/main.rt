// Answers a stream of cases: reads it from standard input, and prints the lines of each case's answer.
#![tactic(auto)]

mod cases;
mod kinds;
mod lines;
mod lines_matrix;
mod lines_oneway;
mod lines_repeated;
mod lines_sheet;
mod lines_stats;
mod lines_twoway;
mod stream;

fn main(rt: HostRuntime) {
    let mut buffer = [0u8; stream::ROOM];
    let mut answers = [0u8; stream::ROOM];
    stream::run(
        rt.stdin(),
        rt.stdout(),
        &mut buffer,
        lines::Out::new(&mut answers),
    );
}
