// What the program does: it reads the three files of the folder that it runs in, and writes the line of their ruling.
#![tactic(auto)]

ghost use Rattle.std.specs.Prelude.{◌≡◌, ◌≤◌, length, take};
ghost use Rattle.octets.specs.Splice.{splice};
ghost use Rattle.checker.specs.Answer.{work_need};
ghost use Rattle.checker.specs.Check.{check_outcome};
ghost use Rattle.checker.specs.Line.{line_of, line_room};

use checker::line;
use std::io::Read;
use std::rt::Files;
use std::{fs, io};

// One byte more than a file's limit, so that a longer file is seen as such.
const PROTOCOL_ROOM: usize = checker::PROTOCOL_LIMIT + 1;

const PROPERTY_ROOM: usize = checker::PROPERTY_LIMIT + 1;

const GRAPH_ROOM: usize = checker::GRAPH_LIMIT + 1;

// Reads a file to the start of a buffer, and gives how many bytes there are. "A file that cannot be opened counts as empty"; one that
// cannot be read to its end counts as the bytes read so far.
fn read_file(rt: &impl Files, name: &str, buffer: &mut [u8]) -> usize
    ensures { (result ≤ length buffer.new) × (result ≡ length (take result buffer.new)) }
{
    match fs::open(rt, name) {
        Ok(file) => read_full(file, buffer),
        Err(_) => 0,
    }
}

// Reads until the buffer is full, the file ends or a read fails, and gives how many bytes there are.
fn read_full<R: Read + Drop>(mut file: R, buffer: &mut [u8]) -> usize
    ensures { (result ≤ length buffer.new) × (result ≡ length (take result buffer.new)) }
{
    let mut done: usize = 0;
    // A while: each read gives as many bytes as it likes.
    while done < buffer.len() {
        match file.read(&mut buffer[done..]) {
            Ok(0) => break,
            Ok(n) => done += n,
            Err(_) => break,
        }
    }
    done
}

// Writes the line of three files to the start of a buffer, and gives its length.
pub fn line_of(
    protocol: &[u8],
    property: &[u8],
    graph: &[u8],
    out: &mut [u8; line::LINE_ROOM],
) -> usize
    ensures wrote { out.new ≡ splice out.old 0 (line_of (check_outcome protocol.now property.now graph.now work_need)) }
    ensures ends { result ≡ length (line_of (check_outcome protocol.now property.now graph.now work_need)) }
    ensures fits { result ≤ line_room }
{
    let mut work = [0u8; checker::WORK_NEED];
    let ruling = checker::check(protocol, property, graph, &mut work);
    line::line(ruling, out)
}

// Writes the line of three files to standard output.
fn print_line(rt: &impl Print, protocol: &[u8], property: &[u8], graph: &[u8]) -> io::Result<()> {
    let mut out = [0u8; line::LINE_ROOM];
    let n = line_of(protocol, property, graph, &mut out);
    rt.write_all(&out[..n])
}

// "It reads protocol.bin, property.bin, graph.bin and writes one line with a line feed"
pub fn report(rt: &(impl Files + Print)) -> io::Result<()> {
    let mut protocol = [0u8; PROTOCOL_ROOM];
    let mut property = [0u8; PROPERTY_ROOM];
    let mut graph = [0u8; GRAPH_ROOM];
    let n = read_file(rt, "protocol.bin", &mut protocol);
    let m = read_file(rt, "property.bin", &mut property);
    let k = read_file(rt, "graph.bin", &mut graph);
    print_line(rt, &protocol[..n], &property[..m], &graph[..k])
}
