//! Calls, and those before them.

#[derive(Clone, Copy)]
pub enum Call {
    Issue,
    Take,
    Ask,
    AskAt,
    ValueOf,
    Outcomes,
    Greet,
    Answer,
    Settle,
    Finish,
    Meet,
    Start,
    Reopen,
}

const CALLS: [(&str, Call); 13] = [
    ("issue", Call::Issue),
    ("take", Call::Take),
    ("ask", Call::Ask),
    ("ask_at", Call::AskAt),
    ("value_of", Call::ValueOf),
    ("outcomes", Call::Outcomes),
    ("greet", Call::Greet),
    ("answer", Call::Answer),
    ("settle", Call::Settle),
    ("finish", Call::Finish),
    ("meet", Call::Meet),
    ("start", Call::Start),
    ("reopen", Call::Reopen),
];

/// The call of this name, if there is one.
pub fn call_named(name: &str) -> Option<Call> {
    for (word, call) in &CALLS {
        if *word == name {
            return Some(*call);
        }
    }
    None
}

impl Call {
    /// What is called before it.
    pub fn before(self) -> &'static [Call] {
        match self {
            Call::Issue => &[],
            Call::Take | Call::Greet | Call::Meet => &[Call::Issue],
            Call::Answer => &[Call::Issue, Call::Greet],
            Call::Settle => &[Call::Issue, Call::Greet, Call::Answer],
            Call::Finish => &[Call::Issue, Call::Greet, Call::Answer, Call::Settle],
            _ => &[Call::Issue, Call::Meet],
        }
    }
}
