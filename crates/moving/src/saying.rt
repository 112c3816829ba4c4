// What both programs say on standard error, each under its own name, as far as standard error takes it. That
// it is so, the programs ask where they say it (their saying.rt).
use remarks::{ends_in, is_marked};

#[derive(Clone, Copy)]
pub enum Program {
    List,
    Total,
}

impl Program {
    // It stands at the head of each line, and in what the hints advise.
    fn name(self) -> &'static str {
        match self {
            Program::List => "list",
            Program::Total => "total",
        }
    }

    // What comes of the records behind a refused layout.
    fn without_layout(self) -> &'static str {
        match self {
            Program::List => "no record is listed",
            Program::Total => "nothing is added",
        }
    }

    // What comes of an input over the limit.
    fn without_input(self) -> &'static str {
        match self {
            Program::List => "nothing is listed",
            Program::Total => "nothing is added",
        }
    }

    // A refused layout, and before it what an operator should look for.
    pub fn layout_refused(self, rt: &HostRuntime, layout: &[u8]) {
        let name = self.name();
        if is_marked(layout) {
            let _ = eprintln!(rt;
                "{name}: hint: the layout line begins with a byte-order mark; tail -c +4 FILE | ./{name} - {name}s the file without it"
            );
        }
        if ends_in(layout, b'\r') {
            let _ = eprintln!(rt;
                "{name}: hint: the layout line ends in a carriage return; tr -d '\\r' <FILE | ./{name} - {name}s the file without them"
            );
        }
        if ends_in(layout, b' ') {
            let _ = eprintln!(rt;
                "{name}: hint: the layout line ends in a blank; end it with the last ;"
            );
        }
        let outcome = self.without_layout();
        let _ = eprintln!(rt; "{name}: the layout is refused, {outcome}");
    }

    // An input over the limit.
    pub fn over_limit(self, rt: &HostRuntime) {
        let name = self.name();
        let outcome = self.without_input();
        let _ = eprintln!(rt; "{name}: the input is over 65,536 bytes, {outcome}");
    }

    // Records that end in a carriage return.
    pub fn returns_hint(self, rt: &HostRuntime) {
        let name = self.name();
        let _ = eprintln!(rt;
            "{name}: hint: records end in a carriage return; tr -d '\\r' <FILE | ./{name} - {name}s the file without them"
        );
    }
}
