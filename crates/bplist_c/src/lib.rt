//! The calls of the C library. `include/bplist.h` documents each call and what a caller must ensure. Not here: the
//! rules of the format, certificates and values, which are in the crates below. This crate only turns their answers
//! into the numbers and buffers of C.
//!
//! ```c
//! bplist_handle handle = {0};
//! bplist_verdict verdict;
//! bplist_found found;
//! if (bplist_open(&handle, file, length, false, &verdict) == BPLIST_OK) {
//!     bplist_find(&handle, file, length, "/jobs/0/id", 10, &found);
//!     bplist_close(&handle);
//! }
//! ```
//!
//! The modules, in reading order:
//!
//! | module | contents |
//! |---|---|
//! | `status` | results and outputs, `bplist_version`, `bplist_rule_name`, `bplist_rule_text`, `bplist_status_text` |
//! | `verdict` | the verdict on a file |
//! | `linter` | `bplist_lint`, `bplist_circle` |
//! | `accepted` | files that are accepted, with the verdicts on them |
//! | `hint` | `bplist_looks_like` |
//! | `handle` | what an open handle holds, and how C holds it |
//! | `loan` | lends the checked file of a handle to one call |
//! | `lifecycle` | `bplist_open`, `bplist_open_certified`, `bplist_close`, `bplist_certificate` |
//! | `lookup` | `bplist_find`, `bplist_find_key` |
//! | `object` | `bplist_face`, `bplist_int`, `bplist_uid`, `bplist_number` |
//! | `faces` | `bplist_faces` |
//! | `members` | `bplist_member`, `bplist_members` |
//! | `parts` | `bplist_read`, `bplist_units` |
//! | `utf8` | `bplist_utf8`, `bplist_find_utf8` |
//! | `sizes`, `text` | `bplist_size`, `bplist_text` |
//!
//! A handle owns a session: the frame and the certificate of a file, without its bytes. Each call is given the bytes
//! again and makes a `Checked` of both by moving them, without a new check.
#![tactic(auto)]

mod accepted;
mod faces;
mod handle;
mod hint;
mod lifecycle;
mod linter;
mod loan;
mod lookup;
mod members;
mod object;
mod parts;
mod sizes;
mod status;
mod text;
mod utf8;
mod verdict;
