// What the lines so far amount to, and what one line more comes to.
ghost use Rattle.std.specs.Prelude.{◌≡◌};
ghost use Rattle.lengths.specs.Edge.{edge_count};
ghost use Rattle.tsplib.specs.State.{step_of, on_specification, on_name, on_type, on_dimension, weighed_as, on_node, body_of};
ghost use Rattle.tsplib.specs.State.{on_nodes, on_weights, weigh_next, row_next, open_nodes, open_weights};

use tsplib_lines::numbers::Tally;
use tsplib_lines::text_line::{TalliedLine, Weighing};

// What EDGE_WEIGHT_TYPE and EDGE_WEIGHT_FORMAT said: nothing, UPPER_ROW alone, EXPLICIT alone, both, or a rule.
#[derive(Clone, Copy, PartialEq, Eq)]
pub enum Weigh {
    Unset,
    Row,
    Explicit,
    ExplicitRow,
    Rule(u32),
}

// What the keyword lines said: whether there was NAME and TYPE, the value of DIMENSION, and the weighing.
#[derive(Clone, Copy)]
pub struct Heading {
    pub name: bool,
    pub typed: bool,
    pub points: Option<u32>,
    pub weigh: Weigh,
}

// The lines so far: keyword lines; a section with `passed` of the n nodes, or with `left` weights to come; or all, with
// EOF.
#[derive(Clone, Copy)]
pub enum State {
    Specification(Heading),
    Nodes { n: u32, rule: u32, passed: u32 },
    Weights { n: u32, left: u64 },
    Ended { n: u32, weighing: Weighing },
}

impl Weigh {
    // What is known of weighing once EDGE_WEIGHT_TYPE is read: None where it goes ill with a line before.
    fn typed(self, weighing: Weighing) -> Option<Weigh>
        ensures { result ≡ weigh_next weighing self }
    {
        match (weighing, self) {
            (Weighing::Explicit, Weigh::Unset) => Some(Weigh::Explicit),
            (Weighing::Explicit, Weigh::Row) => Some(Weigh::ExplicitRow),
            (Weighing::Rule(rule), Weigh::Unset) => Some(Weigh::Rule(rule)),
            _ => None,
        }
    }

    // What is known of weighing once EDGE_WEIGHT_FORMAT is read: None where it goes ill with a line before.
    fn formatted(self) -> Option<Weigh>
        ensures { result ≡ row_next self }
    {
        match self {
            Weigh::Unset => Some(Weigh::Row),
            Weigh::Explicit => Some(Weigh::ExplicitRow),
            _ => None,
        }
    }
}

// How many weights n points have.
fn weight_count(n: u32) -> u64
    ensures { result ≡ edge_count n }
{
    let points = u64::from(n);
    points * points.saturating_sub(1) / 2
}

impl Heading {
    // The keyword lines with what is now known of weighing.
    fn weighed(self, weigh: Option<Weigh>) -> Option<State>
        ensures { result ≡ weighed_as self weigh }
    {
        Some(State::Specification(Heading {
            weigh: weigh?,
            ..self
        }))
    }

    // NAME, which comes once at most.
    fn on_name(self) -> Option<State>
        ensures { result ≡ on_name self }
    {
        if self.name {
            return None;
        }
        Some(State::Specification(Heading { name: true, ..self }))
    }

    // TYPE, which comes once at most.
    fn on_type(self) -> Option<State>
        ensures { result ≡ on_type self }
    {
        if self.typed {
            return None;
        }
        Some(State::Specification(Heading {
            typed: true,
            ..self
        }))
    }

    // DIMENSION, which comes once.
    fn on_dimension(self, n: u32) -> Option<State>
        ensures { result ≡ on_dimension self n }
    {
        if self.points.is_some() {
            return None;
        }
        Some(State::Specification(Heading {
            points: Some(n),
            ..self
        }))
    }

    // NODE_COORD_SECTION, behind DIMENSION and a rule.
    fn open_nodes(self) -> Option<State>
        ensures { result ≡ open_nodes self }
    {
        match (self.points, self.weigh) {
            (Some(n), Weigh::Rule(rule)) => Some(State::Nodes { n, rule, passed: 0 }),
            _ => None,
        }
    }

    // EDGE_WEIGHT_SECTION, behind DIMENSION, EXPLICIT and UPPER_ROW.
    fn open_weights(self) -> Option<State>
        ensures { result ≡ open_weights self }
    {
        match (self.points, self.weigh) {
            (Some(n), Weigh::ExplicitRow) => Some(State::Weights {
                n,
                left: weight_count(n),
            }),
            _ => None,
        }
    }

    // A line behind keyword lines.
    fn step(self, line: TalliedLine) -> Option<State>
        ensures { result ≡ on_specification self line }
    {
        match line {
            TalliedLine::Name => self.on_name(),
            TalliedLine::Comment => Some(State::Specification(self)),
            TalliedLine::Type => self.on_type(),
            TalliedLine::Dimension(n) => self.on_dimension(n),
            TalliedLine::WeightType(weighing) => self.weighed(self.weigh.typed(weighing)),
            TalliedLine::WeightFormat => self.weighed(self.weigh.formatted()),
            TalliedLine::NodeSection => self.open_nodes(),
            TalliedLine::WeightSection => self.open_weights(),
            TalliedLine::Eof | TalliedLine::Numbers(_) | TalliedLine::Other => None,
        }
    }
}

// A line of numbers among the nodes: exactly three, the first its place.
fn on_node(n: u32, rule: u32, passed: u32, tally: Tally) -> Option<State>
    ensures { result ≡ on_node n rule passed tally }
{
    if tally.count == 3 && passed < n && tally.first == passed + 1 {
        return Some(State::Nodes {
            n,
            rule,
            passed: passed + 1,
        });
    }
    None
}

// A line among the nodes: a node, or EOF behind the last.
fn on_nodes(n: u32, rule: u32, passed: u32, line: TalliedLine) -> Option<State>
    ensures { result ≡ on_nodes n rule passed (body_of line) }
{
    match line {
        TalliedLine::Numbers(tally) => on_node(n, rule, passed, tally),
        TalliedLine::Eof if passed == n => Some(State::Ended {
            n,
            weighing: Weighing::Rule(rule),
        }),
        _ => None,
    }
}

// A line among the weights: weights, no more than are left, or EOF behind the last.
fn on_weights(n: u32, left: u64, line: TalliedLine) -> Option<State>
    ensures { result ≡ on_weights n left (body_of line) }
{
    match line {
        TalliedLine::Numbers(tally) => {
            let left = left.checked_sub(tally.count)?;
            Some(State::Weights { n, left })
        }
        TalliedLine::Eof if left == 0 => Some(State::Ended {
            n,
            weighing: Weighing::Explicit,
        }),
        _ => None,
    }
}

impl State {
    // One line: None where the language has no text that goes on so.
    pub fn step(self, line: TalliedLine) -> Option<State>
        ensures { result ≡ step_of self line }
    {
        match self {
            State::Specification(heading) => heading.step(line),
            State::Nodes { n, rule, passed } => on_nodes(n, rule, passed, line),
            State::Weights { n, left } => on_weights(n, left, line),
            State::Ended { .. } => None,
        }
    }
}
