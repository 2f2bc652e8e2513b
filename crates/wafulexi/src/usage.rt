//! How to use the program, as it tells it.

pub const USAGE: &str = "usage: wafulexi COMMAND [WORD..]

  wafulexi inspect [FILE]   check a step file; print its header, its text and its rows
  wafulexi nodes [FILE]     read a rule text; print its nodes and its atoms
  wafulexi classes [--events] [--fold] [--stations DIGITS] [FILE]
                            read a rule text and cut its atoms; print the classes of
                            letters that they make. The letters are bytes
      --events              the letters are bench events
      --fold                of bytes: A to Z are asked about as a to z
      --stations DIGITS     of events: eight DIGITS tell for each station the one that
                            is asked about in its place, as 10234567
  wafulexi help             print this

Without FILE, or where FILE is -, standard input is read.
The status is 0, or 1 where standard error says why.";
