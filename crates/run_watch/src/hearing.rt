//! What the commands of a run write to standard error, shown between the lines on its jobs.

use command_line::Launch;
use plain_data::Text;
use proc_host::ChildEnd;
use process_machine::{Hear, shown_line};
use program_words::{Counts, Listen, Longest, Silent, Teller, Why};
use std::alloc::{AllocError, Global};
use std::cell::RefCell;
use std::io::Write;

/// Takes lines on what is near to a job of which nothing is recorded. What there is no room for is left out.
pub trait TakeNear {
    /// Takes the lines on the job at a place, before it is started.
    fn take_near(&mut self, place: Text, lines: Text);
}

impl TakeNear for Silent {
    fn take_near(&mut self, _place: Text, _lines: Text) {}
}

impl<E: Write> TakeNear for Teller<'_, E> {
    fn take_near(&mut self, place: Text, lines: Text) {
        let _kept = self.know_near(place, lines);
    }
}

/// A command that runs, and its job's place as JSON text.
#[derive(Drop)]
struct Running {
    ticket: u64,
    place: Text,
}

/// Says what becomes of jobs, and shows each line that their commands write. What there is no room for is left out.
#[derive(Drop)]
pub struct Voice<'a, E: Write> {
    alloc: Global,
    teller: Teller<'a, E>,
    running: Vec<Running>,
}

impl<'a, E: Write> Voice<'a, E> {
    pub fn new(alloc: Global, teller: Teller<'a, E>) -> Voice<'a, E> {
        Voice {
            alloc,
            teller,
            running: Vec::new(alloc),
        }
    }

    fn note_start(&mut self, place: &Text, ticket: u64) -> Result<(), AllocError> {
        let place = place.copied(self.alloc)?;
        self.running.push(Running { ticket, place })?;
        Ok(())
    }

    fn note_end(&mut self, ticket: u64) {
        self.running.retain(|child| child.ticket != ticket);
    }

    fn tell_line(&mut self, ticket: u64, line: &[u8]) -> Result<(), AllocError> {
        let words = shown_line(self.alloc, line)?;
        for child in &self.running {
            if child.ticket == ticket {
                self.teller.say(&child.place, words.as_str());
            }
        }
        Ok(())
    }
}

/// One of those who speak in a voice, in turn: the listener of a run, and the hearer of its machine.
#[derive(Drop)]
pub struct Speaker<'b, 'a, E: Write> {
    voice: &'b RefCell<Voice<'a, E>>,
}

impl<'b, 'a, E: Write> Speaker<'b, 'a, E> {
    pub fn new(voice: &'b RefCell<Voice<'a, E>>) -> Speaker<'b, 'a, E> {
        Speaker { voice }
    }
}

impl<E: Write> Hear for Speaker<'_, '_, E> {
    fn hear(&mut self, ticket: u64, line: &[u8]) {
        if let Ok(mut voice) = self.voice.try_borrow_mut() {
            let _told = voice.tell_line(ticket, line);
        }
    }
}

impl<E: Write> TakeNear for Speaker<'_, '_, E> {
    fn take_near(&mut self, place: Text, lines: Text) {
        if let Ok(mut voice) = self.voice.try_borrow_mut() {
            voice.teller.take_near(place, lines);
        }
    }
}

impl<E: Write> Listen for Speaker<'_, '_, E> {
    fn starts(&mut self, place: &Text, launch: &Launch, why: Option<Why>, counts: Counts) {
        if let Ok(mut voice) = self.voice.try_borrow_mut() {
            voice.teller.starts(place, launch, why, counts);
        }
    }

    fn started(&mut self, place: &Text, ticket: u64, counts: Counts, longest: Option<Longest<'_>>) {
        if let Ok(mut voice) = self.voice.try_borrow_mut() {
            let _noted = voice.note_start(place, ticket);
            voice.teller.started(place, ticket, counts, longest);
        }
    }

    fn ended(
        &mut self,
        place: &Text,
        end: &ChildEnd,
        counts: Counts,
        longest: Option<Longest<'_>>,
    ) {
        if let Ok(mut voice) = self.voice.try_borrow_mut() {
            voice.note_end(end.ticket);
            voice.teller.ended(place, end, counts, longest);
        }
    }

    fn loaded(&mut self, place: &Text, counts: Counts, longest: Option<Longest<'_>>) {
        if let Ok(mut voice) = self.voice.try_borrow_mut() {
            voice.teller.loaded(place, counts, longest);
        }
    }

    fn omitted(&mut self, place: &Text) {
        if let Ok(mut voice) = self.voice.try_borrow_mut() {
            voice.teller.omitted(place);
        }
    }
}
