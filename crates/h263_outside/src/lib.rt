//! The outside of the program: what it reads and writes, role by role.
//!
//! A [`Desk`] has a place for each [`Role`]. [`MemoryDesk`] keeps its bytes in memory and tells all
//! of them, [`HostDesk`] stands on files and standard output and tells none, and [`Second`] is a
//! desk as a call's second party sees it. [`read_full`] and [`write_all`] go on until all is done.
//!
//! ```rust
//! let mut desk = MemoryDesk::new(alloc, 3, 5)?;
//! desk.put(Role::Video, b"RIFFWAVE")?;
//! desk.attach(Role::Video, "in")?;
//! let mut buf = [0; 6];
//! assert_eq!(rt; desk.read(Role::Video, &mut buf), Ok(3));
//! assert_eq!(rt; read_full(&mut desk, Role::Video, &mut buf), Ok(5));
//! ```
//!
//! # Decisions
//!
//! - **A file that is written has one role.** An output is opened without truncation, and truncated
//!   only if no attached file, nor `/dev/stdout`, has its device and inode. A character device may
//!   have many roles, a pipe may not. A runtime without such numbers can't tell files apart.
//!
//! - **A closed standard stream becomes `/dev/null`.** Otherwise OUT would get its descriptor, and
//!   the report. std doesn't say which streams are closed, so the desk first opens `/dev/null`
//!   three times. A report without a standard output is then a failed write.
//!
//! - **Status 0 means that outputs are kept.** At the end `flush` calls `fdatasync` for each
//!   regular file: some file systems report a full disk only there, or at `close`, whose error std
//!   drops. If it fails, the status is WriteFault under a whole report. A desk tells whether a
//!   flush has done its work since the last write (`flushed`), and a run must end with one
//!   (`IsTold`).
//!
//! - **Interrupted calls are made again.** std can't ignore SIGXFSZ, which a file's size limit
//!   raises. `./h263rps` does so for the program, whose write then fails with status 4; without the
//!   launcher the program is killed.
#![tactic(auto)]

mod ahead;
mod desk;
mod files;
mod host;
mod input;
pub mod laws;
mod memory;
mod second;
mod whole;

pub use desk::{Desk, Failed, Role, Unattached};
pub use h263_types::OutOfMemory;
pub use host::HostDesk;
pub use memory::MemoryDesk;
pub use second::Second;
pub use whole::{read_full, write_all};
