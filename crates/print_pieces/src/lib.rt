// What the program prints for a table, record by record.
#![tactic(auto)]

ghost use Rattle.std.specs.Prelude.{◌≡◌, ◌+◌, ◌≤◌, length};

use cluster_states::States;
use cluster_watched::Watch;
use rules::Config;
use table::{CycleRecord, Start};

// A table's run between two of its cycles: the press, the number of the next cycle, and what is watched. The caller holds the states of the nodes, which would be
// copied with it at every call.
#[derive(Clone, Copy)]
pub struct Course {
    pub config: Config,
    pub cycle: u64,
    pub watch: Watch,
    ghost few: { config.nodes ≤ 64 },
    // a cycle after number 4294967295 is refused
    ghost counted: { cycle ≤ 4294967296 },
}

// A table's run between two records: before the first of them whether the press is quiet is all that is known.
#[derive(Clone, Copy)]
pub enum Session {
    Fresh(bool),
    Begun(Course),
}

// What one record gave: the session after it, none where it was the last; the bytes of the table that it took; and the cursor after what it wrote.
#[derive(Clone, Copy)]
pub struct Piece {
    pub session: Option<Session>,
    pub taken: usize,
    pub at: usize,
}

impl Course {
    ghost use Rattle.table.specs.Records.{cycle_refusal};
    ghost use Rattle.print_pieces.specs.declared.Session.TheVariants.{Begun};
    ghost use Rattle.print_pieces.specs.Pieces.{CourseBegun, Gives};

    // A run before cycle 1, and the states of its nodes.
    fn begin(config: Config, founding: u64, states: &mut States) -> Self
        requires { config.nodes ≤ 64 }
        ensures { CourseBegun config founding result states.new }
    {
        *states = cluster_states::begin(config.nodes, founding);
        Self {
            config,
            cycle: 1,
            watch: cluster_reference::begin(founding),
        }
    }

    // One cycle, from its record.
    fn run_cycle(self, cycle: CycleRecord, out: &mut [u8], at: usize, states: &mut States) -> Piece
        requires accepted { cycle_refusal self.config.nodes self.cycle cycle.bytes.now ≡ 0 }
        requires at_in_bounds { at + 100 ≤ length out.old }
        ensures { Gives (Begun self) states.old cycle.entry.bytes.now out.old at out.new result states.new }
    {
        let mut unheard = [0u64; 64];
        let mut missed = [0u64; 64];
        table_faults::cycle_missed(cycle, &mut unheard, &mut missed);
        let turn = cluster_reference::step(
            self.config,
            states,
            self.watch,
            cycle.marks(),
            &unheard,
            &missed,
        );
        let end = print_lines::put_line(
            out,
            at,
            self.cycle,
            turn.kept,
            turn.watch,
            turn.halted,
            turn.entered,
        );
        let course = Course {
            config: self.config,
            cycle: self.cycle + 1,
            watch: turn.watch,
        };
        Piece {
            session: Some(Session::Begun(course)),
            taken: cycle.length(),
            at: end,
        }
    }

    // A record after the first: the line of its cycle, or of its refusal, or nothing at the end of the file.
    fn next(self, left: &[u8], out: &mut [u8], at: usize, states: &mut States) -> Piece
        requires { at + 128 ≤ length out.old }
        ensures { Gives (Begun self) states.old left.now out.old at out.new result states.new }
    {
        if left.is_empty() {
            return Piece {
                session: None,
                taken: 0,
                at,
            };
        }
        match table_records::check_cycle(self.config.nodes, self.cycle, left) {
            Err(refusal) => {
                let last = print_lines::put_refusal(out, at, u32::from(refusal));
                Piece {
                    session: None,
                    taken: 0,
                    at: last,
                }
            }
            Ok(cycle) => self.run_cycle(cycle, out, at, states),
        }
    }
}

impl Session {
    ghost use Rattle.print_pieces.specs.declared.Session.TheVariants.{Fresh};
    ghost use Rattle.print_pieces.specs.Pieces.{is_begun, whole_in, Gives};

    // Whether the next record is whole in what is seen of the rest of a table.
    pub fn is_whole(self, left: &[u8]) -> bool
        ensures { result ≡ whole_in (is_begun self) left.now }
    {
        match self {
            Session::Fresh(_) => Start::LENGTH <= left.len(),
            Session::Begun(_) => CycleRecord::read(left).is_some(),
        }
    }

    // The first record: nothing, or the line of its refusal.
    fn open(quiet: bool, left: &[u8], out: &mut [u8], at: usize, states: &mut States) -> Piece
        requires { at + 128 ≤ length out.old }
        ensures { Gives (Fresh quiet) states.old left.now out.old at out.new result states.new }
    {
        match table_first::check_start(None, left) {
            Err(refusal) => Piece {
                session: None,
                taken: 0,
                at: print_lines::put_refusal(out, at, u32::from(refusal)),
            },
            Ok(start) => {
                let nodes = usize::from(start.nodes);
                let course = Course::begin(Config { nodes, quiet }, start.founding, states);
                Piece {
                    session: Some(Session::Begun(course)),
                    taken: Start::LENGTH,
                    at,
                }
            }
        }
    }

    // Takes one record of a table, or its end: `left` is what is seen of the rest, the record whole or all of it. `states` are those of the nodes.
    // Free: what the cluster as it stands (`standing`) does not show of session and states, the states once it is over, and everything where a record that is cut
    // is taken before the end of the file. Buffer and cursor stand apart, since `Turned` says each byte of the buffer.
    pub fn turn(self, left: &[u8], out: &mut [u8], at: usize, states: &mut States) -> Piece
        requires { at + 128 ≤ length out.old }
        ensures { Gives self states.old left.now out.old at out.new result states.new }
    {
        match self {
            Session::Fresh(quiet) => Self::open(quiet, left, out, at, states),
            Session::Begun(course) => course.next(left, out, at, states),
        }
    }
}
