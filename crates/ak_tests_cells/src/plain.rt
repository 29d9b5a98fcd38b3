//! Cells as plain lists: the name of each number, what each ivar is full with, and the handlers that wait.

use crate::call::{Answer, Call, Method, Wake};
use ak_base::list::NoMemory;
use ak_base::number::Num;
use ak_cells::registration::Connected;
use std::alloc::Global;

/// A handler that waits for an ivar.
#[derive(Clone, Copy, Debug)]
struct Handler {
    number: u32,
    ivar: u32,
    frame: u32,
}

/// The ivars and the handlers, oldest first, and those that the last call woke.
#[derive(Debug, Drop)]
pub struct Plain {
    names: Vec<u32>,
    numbers: Vec<Option<Num>>,
    handlers: Vec<Handler>,
    next: u32,
    pub woken: Vec<Wake>,
}

impl Plain {
    /// So many ivars, all empty.
    pub fn new(alloc: Global, ivars: u32) -> Result<Plain, NoMemory> {
        let mut names = Vec::new(alloc);
        let mut numbers = Vec::new(alloc);
        for ivar in 0..ivars {
            names.push(ivar)?;
            numbers.push(None)?;
        }
        Ok(Plain {
            names,
            numbers,
            handlers: Vec::new(alloc),
            next: 0,
            woken: Vec::new(alloc),
        })
    }

    /// What a call answers.
    pub fn answer(&mut self, call: Call) -> Result<Answer, NoMemory> {
        self.woken.clear();
        let name = self.name(call.ivar);
        let number = self.number(name);
        match call.method {
            Method::Register => self.register(name, number, call.number),
            Method::Unregister => Ok(Answer::Unregistered(self.unregister(call.number))),
            Method::Connect => {
                let right = self.name(call.right);
                Ok(Answer::Connected(self.connect(name, number, right)?))
            }
            Method::Fill => {
                if number.is_none() {
                    self.fill(name, call.number as Num)?;
                }
                Ok(Answer::Filled(number.is_none()))
            }
            Method::Name => Ok(Answer::Name(name)),
            Method::Look => Ok(Answer::Number(number)),
        }
    }

    // The name of a number.
    fn name(&self, ivar: u32) -> u32 {
        self.names.get(ivar as usize).copied().unwrap_or(ivar)
    }

    // What the ivar of a name is full with.
    fn number(&self, name: u32) -> Option<Num> {
        self.numbers.get(name as usize).copied().flatten()
    }

    // A handler waits for an empty ivar.
    fn register(&mut self, ivar: u32, full: Option<Num>, frame: u32) -> Result<Answer, NoMemory> {
        if let Some(num) = full {
            return Ok(Answer::Full(num));
        }
        let number = self.next;
        self.next = number.wrapping_add(1);
        self.handlers.push(Handler {
            number,
            ivar,
            frame,
        })?;
        Ok(Answer::Waits(number))
    }

    // The handler of a number waits no longer.
    fn unregister(&mut self, number: u32) -> Option<u32> {
        for place in 0..self.handlers.len() {
            let handler = self.handlers[place];
            if handler.number == number {
                self.handlers.remove(place);
                return Some(handler.frame);
            }
        }
        None
    }

    // An empty ivar gets a number, and its handlers wake.
    fn fill(&mut self, name: u32, num: Num) -> Result<(), NoMemory> {
        if let Some(number) = self.numbers.get_mut(name as usize) {
            *number = Some(num);
        }
        for handler in self.handlers.as_slice() {
            if handler.ivar == name {
                self.woken.push((num, handler.frame))?;
            }
        }
        self.handlers.retain(|handler| handler.ivar != name);
        Ok(())
    }

    // A result takes the number of the right side, or its place.
    fn connect(&mut self, to: u32, full: Option<Num>, from: u32) -> Result<Connected, NoMemory> {
        if to == from {
            return Ok(Connected::Same);
        }
        if full.is_some() {
            return Ok(Connected::ResultFull);
        }
        if let Some(num) = self.number(from) {
            self.fill(to, num)?;
            return Ok(Connected::Filled(num));
        }
        for name in self.names.as_mut_slice() {
            if *name == from {
                *name = to;
            }
        }
        for handler in self.handlers.as_mut_slice() {
            if handler.ivar == from {
                handler.ivar = to;
            }
        }
        Ok(Connected::Joined)
    }
}
