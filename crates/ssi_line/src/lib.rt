//! The line protocol of the transaction store: each line of the input asks for one thing, and is answered at once.
//!
//! A command line is words with one space between them:
//!
//! ```text
//! begin S        get S K        put S K V      del S K        scan S K K     scan S K K N
//! commit S       abort S        collect        stat           dump           stop
//! ```
//!
//! S is a session, K a key, V a value, and N the most rows that the scan gives, from 1 to 65535. A command is answered
//! with one line:
//!
//! ```text
//! begun N        value V        absent         done           rows N K,V K,V ..
//! committed      aborted        conflict K N   unsafe N       kept N
//! stat open N kept N versions N keys N
//! ! 1 busy       ! 2 idle       ! 3 range      ! 4 long       ! 5 spent      ! 6 memory
//! ```
//!
//! `dump` is answered with the text of the history so far and then that of a certificate, or with `! 6 memory`, and
//! `stop` with `stopped`. Any other line of at most 4096 bytes is answered with `? syntax`, and a longer one with
//! `? long`. A store that keeps no history answers `dump` with `? syntax`, too.
#![tactic(auto)]

mod carried;
mod carrying;
mod draft;
mod dump;
mod end;
pub mod laws;
mod line;
mod lines;
mod protocol_store;
mod reading;
mod replies;
mod serving;
mod short_line;

pub use carried::Carried;
pub use carrying::carry_out;
pub use end::End;
pub use line::Line;
pub use protocol_store::ProtocolStore;
pub use reading::read_line;
pub use replies::write_reply;
pub use serving::{answer, serve};
