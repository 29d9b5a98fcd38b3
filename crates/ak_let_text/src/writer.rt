//! The text of a script, written word by word.

ghost use Rattle.std.specs.Prelude.{◌≡◌, [], ◌∷◌, ◌++◌, map, flat_map, decimal, OnOk, IfOk};
ghost use Rattle.ak_text.specs.Decimal.{decimal_of};
ghost use Rattle.ak_syntax.specs.Table.{Exactly, Typed, Valued};
ghost use Rattle.ak_let_text.specs.Named.{local_name, named, named_atom, named_param, proc_name};
ghost use Rattle.ak_let_text.specs.Text.{script_text};
ghost use Rattle.ak_let_text.specs.Words.{head_bytes, line_bytes, prefix_bytes, proc_bytes, spaced, statement_bytes, stmt_bytes, word_bytes, word_place};

use crate::word::ScriptWord::{self, Atom, Local, Proc, Text};
use crate::word::{kind_word, operator_word, work_word};
use ak_base::list::NoMemory;
use ak_base::number::Num;
use ak_program::program::{NumParam, NumPrefix, NumProc, NumStatement};
use ak_program::statement::{NumAtom, NumStmt};
use ak_text::decimal::{write_num, write_u64};
use std::alloc::Global;
use std::marker::Model;

/// The text of these procedures: one line for each form, with one space between its words.
///
/// # Errors
///
/// Want of memory.
pub fn write_script(alloc: Global, procs: &[NumProc]) -> Result<Vec<u8>, NoMemory>
    ensures { IfOk result (λ bytes. bytes.items ≡ script_text (named procs.now)) }
{
    let mut writer = Writer {
        bytes: Vec::new(alloc),
    };
    for proc in procs {
        writer.proc(proc)?;
    }
    Ok(writer.bytes)
}

// The text so far.
#[derive(Drop)]
struct Writer {
    bytes: Vec<u8>,
}

impl Model for Writer {
    ghost use Rattle.std.specs.Prelude.{List, ℕ};

    ghost Value = { List ℕ };

    ghost view = { λ writer. writer.bytes.items };
}

impl Writer {
    fn put(&mut self, bytes: &[u8]) -> Result<(), NoMemory>
        ensures { OnOk result (self.new ≡ self.old ++ bytes.now) }
    {
        self.bytes.extend_from_slice(bytes)?;
        Ok(())
    }

    fn number(&mut self, number: Num) -> Result<(), NoMemory>
        ensures { OnOk result (self.new ≡ self.old ++ decimal_of number) }
    {
        let mut digits = [0; 20];
        let len = write_num(number, &mut digits);
        self.put(&digits[..len])
    }

    fn place(&mut self, place: usize) -> Result<(), NoMemory>
        ensures { OnOk result (self.new ≡ self.old ++ decimal place) }
    {
        let mut digits = [0; 20];
        let len = write_u64(place as u64, &mut digits);
        self.put(&digits[..len])
    }

    fn local_name(&mut self, local: usize) -> Result<(), NoMemory>
        ensures { OnOk result (self.new ≡ self.old ++ local_name local) }
    {
        self.put(b"v")?;
        self.place(local)
    }

    fn proc_name(&mut self, proc: usize) -> Result<(), NoMemory>
        ensures { OnOk result (self.new ≡ self.old ++ proc_name proc) }
    {
        if proc == 0 {
            return self.put(b"main");
        }
        self.put(b"p")?;
        self.place(proc)
    }

    fn atom(&mut self, atom: NumAtom) -> Result<(), NoMemory>
        ensures { OnOk result (self.new ≡ self.old ++ word_bytes (ScriptWord.Atom atom)) }
    {
        match atom {
            NumAtom::Literal(number) => self.number(number),
            NumAtom::Local(local) => self.local_name(local),
        }
    }

    fn param(&mut self, param: NumParam) -> Result<(), NoMemory>
        ensures { OnOk result (self.new ≡ self.old ++ word_bytes (ScriptWord.Param param)) }
    {
        self.local_name(param.name)?;
        self.put(b":")?;
        self.put(kind_word(param.kind).as_bytes())
    }

    fn word(&mut self, word: ScriptWord) -> Result<(), NoMemory>
        ensures { OnOk result (self.new ≡ self.old ++ word_bytes word) }
    {
        match word {
            ScriptWord::Text(text) => self.put(text.as_bytes()),
            ScriptWord::Local(local) => self.local_name(local),
            ScriptWord::Proc(proc) => self.proc_name(proc),
            ScriptWord::Atom(atom) => self.atom(atom),
            ScriptWord::Param(param) => self.param(param),
        }
    }

    // Each word behind a space.
    fn words(&mut self, words: &[ScriptWord]) -> Result<(), NoMemory>
        ensures { OnOk result (self.new ≡ self.old ++ spaced (map word_place words.now)) }
    {
        for word in words {
            self.put(b" ")?;
            self.word(*word)?;
        }
        Ok(())
    }

    fn args(&mut self, args: &[NumAtom]) -> Result<(), NoMemory>
        ensures { OnOk result
            (self.new ≡ self.old ++ spaced (map Valued (map named_atom args.now))) }
    {
        for arg in args {
            self.put(b" ")?;
            self.word(ScriptWord::Atom(*arg))?;
        }
        Ok(())
    }

    fn params(&mut self, params: &[NumParam]) -> Result<(), NoMemory>
        ensures { OnOk result
            (self.new ≡ self.old ++ spaced (map Typed (map named_param params.now))) }
    {
        for param in params {
            self.put(b" ")?;
            self.word(ScriptWord::Param(*param))?;
        }
        Ok(())
    }

    // A condition, with a space behind it.
    fn prefix(&mut self, prefix: Option<NumPrefix>) -> Result<(), NoMemory>
        ensures { OnOk result (self.new ≡ self.old ++ prefix_bytes prefix) }
    {
        match prefix {
            None => Ok(()),
            Some(NumPrefix::If(atom)) => self.condition("if", atom),
            Some(NumPrefix::Unless(atom)) => self.condition("unless", atom),
        }
    }

    fn condition(&mut self, word: &'static str, atom: NumAtom) -> Result<(), NoMemory>
        ensures { OnOk result
            (self.new ≡ self.old ++ (word.now ++ 32 ∷ (word_bytes (ScriptWord.Atom atom) ++ 32 ∷ []))) }
    {
        self.put(word.as_bytes())?;
        self.put(b" ")?;
        self.atom(atom)?;
        self.put(b" ")
    }

    // A line: its condition, its first word, further words, and the arguments of a call.
    fn line(
        &mut self,
        prefix: Option<NumPrefix>,
        first: &'static str,
        words: &[ScriptWord],
        args: &[NumAtom],
    ) -> Result<(), NoMemory>
        ensures { OnOk result (self.new ≡ self.old ++ line_bytes prefix (Exactly first.now
            ∷ (map word_place words.now ++ map Valued (map named_atom args.now)))) }
    {
        self.prefix(prefix)?;
        self.put(first.as_bytes())?;
        self.words(words)?;
        self.args(args)?;
        self.put(b"\n")
    }

    // A statement, on a line behind its condition.
    fn statement(&mut self, prefix: Option<NumPrefix>, stmt: &NumStmt) -> Result<(), NoMemory>
        ensures { OnOk result (self.new ≡ self.old ++ stmt_bytes prefix stmt.now) }
    {
        match stmt {
            NumStmt::Set { x, a, op, b } => {
                let words = [Local(*x), Atom(*a), Text(operator_word(*op)), Atom(*b)];
                self.line(prefix, "set", &words, &[])
            }
            NumStmt::Print { a } => self.line(prefix, "print", &[Atom(*a)], &[]),
            NumStmt::Ivar { i } => self.line(prefix, "ivar", &[Local(*i)], &[]),
            NumStmt::Offer { i, a } => self.line(prefix, "offer", &[Local(*i), Atom(*a)], &[]),
            NumStmt::Upon { d, proc, args } => {
                self.line(prefix, "upon", &[Local(*d), Proc(*proc)], args.as_slice())
            }
            NumStmt::Sched { proc, args } => {
                self.line(prefix, "sched", &[Proc(*proc)], args.as_slice())
            }
            NumStmt::Monitor { m } => self.line(prefix, "monitor", &[Local(*m)], &[]),
            NumStmt::Within { m, proc, args } => {
                self.line(prefix, "within", &[Local(*m), Proc(*proc)], args.as_slice())
            }
            NumStmt::Detach { m } => self.line(prefix, "detach", &[Local(*m)], &[]),
            NumStmt::OnError { m, proc, args } => {
                self.line(
                    prefix,
                    "onerror",
                    &[Local(*m), Proc(*proc)],
                    args.as_slice(),
                )
            }
            NumStmt::Raise { a } => self.line(prefix, "raise", &[Atom(*a)], &[]),
            NumStmt::Work { r, kind, a } => {
                let words = [Local(*r), Text(work_word(*kind)), Atom(*a)];
                self.line(prefix, "work", &words, &[])
            }
            NumStmt::Ret { a } => self.line(prefix, "ret", &[Atom(*a)], &[]),
            _ => self.line(prefix, "stop", &[], &[]),
        }
    }

    // A procedure: its first line, its statements and its end.
    fn proc(&mut self, proc: &NumProc) -> Result<(), NoMemory>
        ensures { OnOk result (self.new ≡ self.old ++ proc_bytes proc.now) }
    {
        self.head(proc.name, proc.params.as_slice())?;
        self.body(proc.body.as_slice())?;
        self.put(b"end\n")
    }

    fn head(&mut self, name: usize, params: &[NumParam]) -> Result<(), NoMemory>
        ensures { OnOk result (self.new ≡ self.old ++ head_bytes name params.now) }
    {
        self.put(b"proc ")?;
        self.proc_name(name)?;
        self.params(params)?;
        self.put(b"\n")
    }

    fn body(&mut self, body: &[NumStatement]) -> Result<(), NoMemory>
        ensures { OnOk result (self.new ≡ self.old ++ flat_map statement_bytes body.now) }
    {
        for statement in body {
            self.statement(statement.prefix, &statement.stmt)?;
        }
        Ok(())
    }
}
