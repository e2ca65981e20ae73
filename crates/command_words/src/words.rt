//! The words of a command line.
ghost use Rattle.std.specs.Prelude.{◌≡◌, ◌≤◌, ◌↔◌, ◌++◌, ◌∷◌, ℕ, [], OnOk, OnErr, IfSome, IsNone, IsTrue, codes, decimal, Some};
ghost use Rattle.command_words.specs.Demo.{IsDemo};
ghost use Rattle.command_words.specs.MoveWords.{AreWordsOf, IsMove};

use crate::moves::Move;
use cca_roles::RoleName;
use device_cells::NoMemory;
use itoa::Buffer;
use record_bodies::Label;
use std::alloc::Global;
use std::marker::Model;

/// What the words of a command line ask for.
#[derive(Clone, Copy, Debug, PartialEq, Eq)]
pub enum Command {
    /// `run`: the requests of the input are served.
    Run,
    /// `demo N`: lines that are made up from this number are served, and counted.
    Demo(u32),
}

/// The words behind the program's name.
#[derive(Drop)]
pub struct Words {
    alloc: Global,
    words: Vec<String>,
}

impl Model for Words {
    ghost use Rattle.std.specs.Prelude.{ℕ, List, map};
    ghost use Rattle.std.specs.String.{string_bytes};

    ghost Value = { List (List ℕ) };

    ghost view = { λ w. map string_bytes w.words.items };
}

impl Words {
    /// No words.
    pub fn new(alloc: Global) -> Words
        ensures { result ≡ [] }
    {
        Words {
            alloc,
            words: Vec::new(alloc),
        }
    }

    /// Adds a word at the end.
    pub fn push(&mut self, word: &str) -> Result<(), NoMemory>
        ensures ok { OnOk result (self.new ≡ self.old ++ word.now ∷ []) }
        ensures err { OnErr result (self.new ≡ self.old) }
    {
        let word = String::from_str(self.alloc, word)?;
        self.words.push(word)?;
        Ok(())
    }

    /// The command, where they are one: the one word `run`, or `demo` and a number from 1 to 1,000 in decimal
    /// digits, of which the first isn't zero.
    pub fn command(&self) -> Option<Command>
        ensures run { (result ≡ Some Command.Run) ↔ (self.now ≡ codes "run" ∷ []) }
        ensures demo { (n : ℕ) → (result ≡ Some (Command.Demo n)) ↔ IsDemo n self.now }
    {
        if self.are_just("run") {
            return Some(Command::Run);
        }
        match self.demo_number() {
            Some(number) => Some(Command::Demo(number)),
            None => None,
        }
    }

    /// Whether they are this one word.
    pub fn are_just(&self, word: &str) -> bool
        ensures { IsTrue result ↔ (self.now ≡ word.now ∷ []) }
    {
        match self.words.as_slice() {
            [only] => only.as_str() == word,
            _ => false,
        }
    }

    /// The move that they ask for, where they are `unload`, the name of a role, a label, the name of a role and a label.
    pub fn moving(&self) -> Option<Move>
        ensures found { IfSome result (λ w. AreWordsOf w self.now) }
        ensures none { IsNone result → IsMove self.now → ⊥ }
    {
        match self.words.as_slice() {
            [word, role, transport, role_there, transport_there] => move_of(
                word.as_str(),
                role.as_str(),
                transport.as_str(),
                role_there.as_str(),
                transport_there.as_str(),
            ),
            _ => None,
        }
    }

    // The number behind `demo`, where they are these two words.
    fn demo_number(&self) -> Option<u32>
        ensures { (n : ℕ) → (result ≡ Some n) ↔ IsDemo n self.now }
    {
        match self.words.as_slice() {
            [word, number] => demo_of(word.as_str(), number.as_str()),
            _ => None,
        }
    }
}

// The move that the five words ask for, where they do.
fn move_of(
    word: &str,
    role: &str,
    transport: &str,
    role_there: &str,
    transport_there: &str,
) -> Option<Move>
    ensures found { IfSome result (λ w. AreWordsOf w
        (word.now ∷ role.now ∷ transport.now ∷ role_there.now ∷ transport_there.now ∷ [])) }
    ensures none { IsNone result → IsMove
        (word.now ∷ role.now ∷ transport.now ∷ role_there.now ∷ transport_there.now ∷ []) → ⊥ }
{
    if word != "unload" {
        return None;
    }
    let role = RoleName::read(role.as_bytes())?;
    let transport = Label::read(transport.as_bytes())?;
    let role_there = RoleName::read(role_there.as_bytes())?;
    let transport_there = Label::read(transport_there.as_bytes())?;
    Some(Move {
        role,
        transport,
        role_there,
        transport_there,
    })
}

// The number of a demo, where the two words ask for one.
fn demo_of(word: &str, number: &str) -> Option<u32>
    ensures { (n : ℕ) → (result ≡ Some n) ↔ IsDemo n (word.now ∷ number.now ∷ []) }
{
    if word == "demo" {
        small_number(number)
    } else {
        None
    }
}

// A number from 1 to 1,000, where the word is its decimal digits.
fn small_number(word: &str) -> Option<u32>
    ensures { (n : ℕ) → (result ≡ Some n) ↔ ((word.now ≡ decimal n) × (1 ≤ n) × (n ≤ 1000)) }
{
    let Ok(number) = word.parse::<u32>() else {
        return None;
    };
    let mut digits = Buffer::new();
    let is_plain = digits.format(number) == word;
    if is_plain && 1 <= number && number <= 1000 {
        Some(number)
    } else {
        None
    }
}
