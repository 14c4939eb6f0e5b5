//! td_workbench, which is the library of td_console.

pub use td_replay::{Device, Meter, Opens, Site};
pub use td_workbench::{
    Links, NoLinks, Options, TcpLinks, accept_on, export, listing, program, run_journaled,
    run_program, workbench,
};
