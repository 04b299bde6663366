// The desk program: it reads the files `causes` and `sheet` of its folder, searches for the minimal
// explanations and prints them.
#![tactic(auto)]

ghost use Rattle.std.specs.Prelude.{◌≡◌, ◌≤◌, length};
ghost use Rattle.std.specs.Counts.{IsPrefixLen};
ghost use Rattle.papers.specs.Reading.{read_papers};
ghost use Rattle.printout.specs.Output.{desk_text};

use printout::write_report;
use std::fs::File;
use std::io::Read;
use std::rt::Files;

// Reads until the buffer is full or the input ends, and answers how many bytes came; where a read
// fails, none.
fn read_all(file: &mut impl Read, paper: &mut [u8]) -> usize
    ensures { IsPrefixLen result paper.new }
{
    let mut size: usize = 0;
    while size < paper.len() {
        let Ok(more) = file.read(&mut paper[size..]) else {
            return 0;
        };
        if more == 0 {
            return size;
        }
        size += more;
    }
    size
}

// The first 65,536 bytes of a file. One that cannot be read counts as empty.
fn read_paper<'a>(rt: &impl Files, path: &str, paper: &'a mut [u8; 65536]) -> &'a [u8]
    ensures { length result.now ≤ 65536 }
{
    let Ok(mut file) = File::open(rt, path) else {
        return &[];
    };
    let size = read_all(&mut file, paper);
    &paper[..size]
}

// Hands to the system's `write` the text that document 01 has printed of these papers. The papers are lent for the contract: nothing is
// said of the bytes that `write` takes, so here it is said of those that it is given. Where they cannot be written the program ends as ever.
fn print_text(rt: &impl Print, file: &[u8], sheet: &[u8], text: &[u8])
    requires { text.now ≡ desk_text (read_papers file.now sheet.now) }
{
    let _ = rt.write_all(text);
}

fn main(rt: HostRuntime) {
    let mut causes = [0u8; 65536];
    let file = read_paper(&rt, "causes", &mut causes);
    let mut query = [0u8; 65536];
    let sheet = read_paper(&rt, "sheet", &mut query);
    let mut dual = [0u8; 52488];
    let mut list = [0u32; 1024];
    let mut out = [0u8; 98304];
    let size = write_report(file, sheet, &mut dual, &mut list, &mut out);
    print_text(&rt, file, sheet, &out[..size]);
}
