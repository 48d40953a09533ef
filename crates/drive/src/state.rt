// What a script has made so far, and what a line does.
use crate::calls::Live;
use crate::held::Held;
use crate::line::{Asked, Line, Order};
use crate::room::Stores;
use crate::{shows, told};
use script::answers::Text;

#[derive(Drop)]
pub(crate) struct State {
    live: Option<Live>,
    // calls behind a refusal are to answer `-`
    until: bool,
    held: Held,
    stores: Stores,
}

impl State {
    // Before the first line.
    pub(crate) fn new() -> State {
        State {
            live: None,
            until: false,
            held: Held::new(),
            stores: Stores::new(),
        }
    }

    // Another read of `all`, or false where none is under way.
    pub(crate) fn reads_again(&mut self, text: &mut Text<'_>) -> bool {
        match &mut self.live {
            Some(live) => live.reads_again(&mut self.held, &mut self.stores, text),
            None => false,
        }
    }

    // Does what a line asks for; nothing where it is not understood.
    pub(crate) fn line(&mut self, line: &[u8], text: &mut Text<'_>) -> Option<()> {
        match Line::of(line, self.held.room())? {
            Line::Passed => Some(()),
            Line::Session(asked) => {
                self.session(asked, line, text);
                Some(())
            }
            Line::UntilRefused => {
                self.until = true;
                Some(())
            }
            Line::Order(order) => self.order(order, text),
        }
    }

    // A new session, told by the line itself, or the number by which there is none. All is as at the start but for `until refused`, which
    // stays.
    fn session(&mut self, asked: Asked, line: &[u8], text: &mut Text<'_>) {
        self.held.clear();
        self.stores.begin(asked.message);
        let made = session::new::new(asked.role, asked.frame, asked.message, asked.unmasked);
        match made.sent {
            Ok(()) => {
                self.live = Some(Live::new(made.session));
                text.put(line);
            }
            Err(refusal) => {
                self.live = None;
                told::refused(text, refusal.number());
            }
        }
        text.put(b"\n");
    }

    // What is asked of the session, where there is one.
    fn order(&mut self, order: Order, text: &mut Text<'_>) -> Option<()> {
        let live = self.live.as_mut()?;
        match order {
            Order::Call(_) if self.until && live.refused => text.put(b"-\n"),
            Order::Call(call) => live.call(call, &mut self.held, &mut self.stores, text)?,
            Order::Lend {
                message,
                control,
                output,
            } => self.stores.lend(message, control, output)?,
            Order::Lay { store, at, given } => self.stores.lay(store, at, self.held.given(given))?,
            Order::Masks(masks) => live.masks = masks,
            Order::Keep(kept) => live.keep = kept,
            Order::Set(field) => {
                field.set(&mut live.session);
                // a session that was altered by hand can have a byte written anywhere
                self.stores.reaches_all();
            }
            Order::Held => shows::held(live.session, self.stores.output(), text),
            Order::Waits => shows::waits(live.session, text),
            Order::State => shows::state(live.session, text),
            Order::Stores => shows::stores(&self.stores, text),
        }
        Some(())
    }
}
