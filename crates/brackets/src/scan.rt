// The walk in numbers: how many brackets are open, and what the tree needs so far.
ghost use Rattle.std.specs.Prelude.{◌≡◌, ◌+◌, ◌<◌, ◌^◌};
ghost use Rattle.brackets.specs.Count.{start, stopped, while, opened, closed, added};

#[derive(Clone, Copy)]
pub enum Phase {
    Going,
    Done,
    Unclosed,
    Trailing,
}

#[derive(Clone, Copy)]
pub struct Scan {
    pub phase: Phase,
    pub depth: usize,
    pub nodes: usize,
    pub text: usize,
    pub most: usize,
}

impl Scan {
    pub fn begin() -> Self
        ensures { result ≡ start }
    {
        Scan {
            phase: Phase::Going,
            depth: 0,
            nodes: 0,
            text: 0,
            most: 0,
        }
    }

    fn with_phase(self, phase: Phase) -> Self
        ensures { result ≡ stopped self phase }
    {
        Scan { phase, ..self }
    }

    // A token after the walk's end: a walk that is done refuses it.
    fn ended(self) -> Self
        ensures { result ≡ while self self self.phase }
    {
        match self.phase {
            Phase::Done => self.with_phase(Phase::Trailing),
            _ => self,
        }
    }

    // An opening bracket.
    pub fn opens(self) -> Self
        requires { (self.depth < 2 ^ 63) × (self.nodes < 2 ^ 63) }
        ensures { result ≡ while self (opened self) self.phase }
    {
        match self.phase {
            Phase::Going => {
                let depth = self.depth + 1;
                Scan {
                    phase: Phase::Going,
                    depth,
                    nodes: self.nodes + 1,
                    most: self.most.max(depth),
                    ..self
                }
            }
            _ => self.ended(),
        }
    }

    // A closing bracket.
    pub fn closes(self) -> Self
        ensures { result ≡ while self (closed self) self.phase }
    {
        match self.phase {
            Phase::Going => self.close_one(),
            _ => self.ended(),
        }
    }

    // Stays: each branch names its phase, here and in `add_one`; computed in one place it hid from the compiler that a walk goes on, and `()` took half as long again.
    fn close_one(self) -> Self
        ensures { result ≡ closed self }
    {
        if self.depth == 0 {
            return self.with_phase(Phase::Unclosed);
        }
        let depth = self.depth - 1;
        if depth == 0 {
            return Scan {
                phase: Phase::Done,
                depth,
                ..self
            };
        }
        Scan {
            phase: Phase::Going,
            depth,
            ..self
        }
    }

    // An atom whose text has so many bytes.
    pub fn adds(self, size: usize) -> Self
        requires { (self.nodes < 2 ^ 63) × (self.text + size < 2 ^ 63) }
        ensures { result ≡ while self (added self size) self.phase }
    {
        match self.phase {
            Phase::Going => self.add_one(size),
            _ => self.ended(),
        }
    }

    fn add_one(self, size: usize) -> Self
        requires { (self.nodes < 2 ^ 63) × (self.text + size < 2 ^ 63) }
        ensures { result ≡ added self size }
    {
        let nodes = self.nodes + 1;
        let text = self.text + size;
        if self.depth == 0 {
            return Scan {
                phase: Phase::Done,
                nodes,
                text,
                ..self
            };
        }
        Scan {
            phase: Phase::Going,
            nodes,
            text,
            ..self
        }
    }
}
