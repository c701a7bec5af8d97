// widen FILE: writes the frame records of the file in the new form, or nothing if it is refused.
#![tactic(auto)]

use convert::convert;
use input::has_arguments;
use records::Direction;

const USAGE: &[u8] =
    b"usage: widen FILE > NEW\nWrites the 64-byte frame records of FILE as 128-byte records, each with zeros added.\nFILE is read twice; nothing is written if it is refused, and standard error then says\nrefused and the number: 15 FILE is not of whole 64-byte records; 8 a data length is above 62,\nor a byte past the data is not 0.\nStandard error is empty if all went well.\n";

fn main(rt: HostRuntime) {
    if has_arguments(&rt, 2, USAGE) {
        convert(&rt, Direction::Widen);
    }
}
