// explain: reads a program on standard input and writes one line: that it is admitted, or why it is refused.
#![tactic(auto)]

ghost use Rattle.explain.specs.Line.{LineOf};

use arrayvec::ArrayVec;
use input::{PROGRAM_ROOM, has_arguments, read_whole, write_output};
use why::put_explained;

// The line of the program.
fn tell(program: &[u8]) -> ArrayVec<u8, 192>
    ensures { LineOf program.now result.items }
{
    let reply = admission::explain(program);
    let mut line = ArrayVec::new();
    put_explained(&mut line, program, reply);
    line
}

const USAGE: &[u8] =
    b"usage: explain < PROGRAM\nWrites one line: admitted, or why the program is refused.\nrefused 5: it is empty. refused 9: it is above 4,096 bytes.\nrefused 11 at ADDRESS: the instruction there, and the admission rule that it breaks. Addresses are hexadecimal, other numbers decimal.\nAn instruction has the letters of its operation, then 2 for 16 bits, k for keep, r for the return stack.\n";

fn run(rt: &HostRuntime) -> Option<()> {
    let mut bytes = [0u8; PROGRAM_ROOM];
    let program = read_whole(rt, &mut rt.stdin(), b"standard input", &mut bytes)?;
    write_output(rt, tell(program).as_slice())
}

fn main(rt: HostRuntime) {
    if has_arguments(&rt, 1, USAGE) {
        let _ = run(&rt);
    }
}
