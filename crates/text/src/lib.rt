// Text onto a lent page, and the lines that the program prints. A byte that finds no room is left out, so every method is total. It is written out and not
// left to `Display`: the promise of `playing::play` is of every byte, and nothing is promised of what `write!` leaves in a lent buffer.
#![tactic(auto)]

ghost use Rattle.std.specs.Prelude.{◌≡◌, ◌+◌, ◌<◌, ◌≤◌, [], ◌∷◌, ◌++◌, length};
ghost use Rattle.rules.specs.Answers.{wait, refused};
ghost use Rattle.rules.specs.Means.{means};
ghost use Rattle.rules.specs.Play.{ascii, decimal, answer_text, row_text};
ghost use Rattle.replies.specs.Codes.{said_by, answer_by};
ghost use Rattle.text.specs.Page.{Prints};
ghost use Rattle.text.specs.Lines.{answer_line};

use replies::Said;
use rules::{Refused, Reply, Row};

// A page: a lent buffer, and the place where the next byte goes.
#[derive(Drop)]
pub struct Page<'a> {
    pub out: &'a mut [u8],
    pub at: usize,
}

impl Page<'_> {
    #[tactic(auto, using(crate::proofs::Pages::put_in, crate::proofs::Pages::put_out))]
    pub fn put_byte(&mut self, b: u8)
        ensures { Prints self.old self.new (b ∷ []) }
    {
        if self.at < self.out.len() {
            self.out[self.at] = b;
            self.at += 1;
        }
    }

    pub fn put_text(&mut self, text: &[u8])
        ensures { Prints self.old self.new text.now }
    {
        for b in text {
            self.put_byte(*b);
        }
    }

    // by way of the digits before the last, which are printed first
    pub fn put_number(&mut self, n: u64)
        ensures { Prints self.old self.new (decimal n) }
    {
        if 10 <= n {
            self.put_number(n / 10);
        }
        self.put_byte(b'0' + (n % 10) as u8);
    }

    // A word and a number. One of 32 bits has at most 10 digits.
    pub fn put_named(&mut self, word: &[u8], n: u64)
        ensures is_printed { Prints self.old self.new (word.now ++ decimal n) }
        ensures at_most { n < 4294967296 → self.new.at ≤ self.old.at + length word.now + 10 }
    {
        self.put_text(word);
        self.put_number(n);
    }

    // A space and a number.
    pub fn put_next(&mut self, n: u32)
        ensures is_printed { Prints self.old self.new (ascii " " ++ decimal n) }
        ensures at_most { self.new.at ≤ self.old.at + 11 }
    {
        self.put_named(b" ", n as u64);
    }

    // A line of a word and a number: `bad L`, `covered n`.
    pub fn put_line(&mut self, word: &[u8], n: u64)
        ensures is_printed { Prints self.old self.new (word.now ++ decimal n ++ ascii "\n") }
        ensures at_most { self.new.at ≤ self.old.at + length word.now + 21 }
    {
        self.put_named(word, n);
        self.put_byte(b'\n');
    }

    // `hold seat start end kind`
    pub fn put_row(&mut self, row: Row)
        ensures is_printed { Prints self.old self.new (row_text row) }
        ensures at_most { self.new.at ≤ self.old.at + 49 }
    {
        self.put_named(b"hold ", row.seat as u64);
        self.put_next(row.first);
        self.put_next(row.end);
        self.put_next(row.kind);
        self.put_byte(b'\n');
    }

    // `wait n first end`
    fn put_wait(&mut self, n: u32, first: u32, end: u32)
        ensures is_printed { Prints self.old self.new (answer_text (wait n first end)) }
        ensures at_most { self.new.at ≤ self.old.at + 37 }
    {
        self.put_named(b"wait ", n as u64);
        self.put_next(first);
        self.put_next(end);
    }

    // `no n`
    fn put_refusal(&mut self, number: u32)
        ensures is_printed { Prints self.old self.new (answer_text (refused number)) }
        ensures at_most { self.new.at ≤ self.old.at + 13 }
    {
        self.put_named(b"no ", number as u64);
    }

    // an answer, its refusal by any number
    fn put_answer(&mut self, answer: Result<Reply, u32>)
        ensures is_printed { Prints self.old self.new (answer_text (answer_by (said_by answer))) }
        ensures at_most { self.new.at ≤ self.old.at + 37 }
    {
        match answer {
            Ok(Reply::Node(n)) => self.put_named(b"node ", n as u64),
            Ok(Reply::Out) => self.put_text(b"out"),
            Ok(Reply::On) => self.put_text(b"on"),
            Ok(Reply::Wait(n, first, end)) => self.put_wait(n, first, end),
            Ok(Reply::Held) => self.put_text(b"held"),
            Ok(Reply::Back) => self.put_text(b"back"),
            Err(number) => self.put_refusal(number),
        }
    }

    fn put_call(&mut self, number: u32, answer: Result<Reply, u32>)
        ensures is_printed { Prints self.old self.new (answer_line number (answer_by (said_by answer))) }
        ensures at_most { number < 10000 → self.new.at ≤ self.old.at + 43 }
    {
        self.put_number(number as u64);
        self.put_byte(b' ');
        self.put_answer(answer);
        self.put_byte(b'\n');
    }

    // A call's line: its number and its answer. No script has 10,000 calls.
    pub fn put_turn(&mut self, number: u32, answer: Result<Reply, Refused>)
        ensures is_printed { Prints self.old self.new (answer_line number (means answer)) }
        ensures at_most { number < 10000 → self.new.at ≤ self.old.at + 43 }
    {
        self.put_call(number, answer.map_err(replies::number));
    }

    // The same of an answer as numbers, whoever made them.
    pub fn put_said(&mut self, number: u32, said: Said)
        ensures is_printed { Prints self.old self.new (answer_line number (answer_by said)) }
        ensures at_most { number < 10000 → self.new.at ≤ self.old.at + 43 }
    {
        self.put_call(number, said.answer());
    }
}
