//! Designs as text: reads layouts and questions.
//!
//! A design is read line by line. `#` begins a comment, and words are separated by blanks or tabs:
//!
//!     layout dense 2 3 | layout dense | layout diagonal 3 3 | layout sparse 3 3 : 0 0 , 0 2 , 2 1
//!     find L A B ..      the wide lookup of an index in layout L
//!     number L A B ..    the strict lookup
//!     place L N          the place with the number N
//!
//! Layouts are numbered from 0 in the order of their lines.
#![tactic(auto)]

pub mod ask;
pub mod command;
pub mod fault;
pub mod layout_line;
pub mod number;
pub mod question_line;
pub mod read;
pub mod words;
