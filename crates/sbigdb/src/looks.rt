//! Requests that move nothing.

ghost use Rattle.std.specs.Prelude.{◌≡◌, ◌<◌, map, IfOk, OnOk};
ghost use Rattle.debug_session.specs.Sessions.{bench_of, points_of, size_of, timeline_of, watches_of, KeepsPlan};
ghost use Rattle.sbigdb.specs.Kept.{IsKept, IsTalk, named_or, points_after, watch_of, watches_after};
ghost use Rattle.sbigdb.specs.Stops.{stop_text};
ghost use Rattle.sbigdb.specs.Replies.{hart_named, hart_shown, IsReply};
ghost use Rattle.sbigdb.specs.Talks.{hart_or};

use crate::answers::PacketPayloads;
use crate::replies::{hart_of, text_of};
use crate::talk::Talk;
use board_model::HartId;
use crew::Crew;
use debug_session::{GdbLook, WatchKind, Watching, Watchpoint, parts, strip_prefix};
use std::alloc::AllocError;

/// The watchpoint that a packet names. A watch on writes sees changes.
fn watch_of(what: Watching, address: u64, count: u64) -> Watchpoint
    ensures { result ≡ watch_of what address count }
{
    let kind = match what {
        Watching::Writes => WatchKind::Changes,
        Watching::Reads => WatchKind::Reads,
        Watching::Accesses => WatchKind::Accesses,
    };
    Watchpoint {
        kind,
        address,
        count,
    }
}

impl<'a, C: Crew> Talk<'a, C> {
    /// Answers a request that moves nothing: one payload; none where the debugger is gone.
    pub(crate) fn answer_look(
        &mut self,
        asked: GdbLook,
        packet: &[u8],
    ) -> Result<PacketPayloads, AllocError>
        ensures same { timeline_of self.new.session ≡ timeline_of self.old.session }
        ensures rest { KeepsPlan self.old.session self.new.session }
        ensures shown { OnOk result (self.new.hart ≡ hart_shown asked (size_of self.old.session) self.old.hart) }
        ensures replied { IfOk result (λ out. IsReply asked (size_of self.old.session) self.old.hart
            (bench_of self.old.session) (stop_text self.old.last self.old.takes_swbreak) (map (λ v. v.items) out.items)) }
        ensures points { OnOk result (points_of self.new.session ≡ points_after asked (points_of self.old.session)) }
        ensures watches { OnOk result (watches_of self.new.session ≡ watches_after asked (watches_of self.old.session)) }
        ensures kept { OnOk result (IsKept asked self.old self.new) }
    {
        let mut out = Vec::new(self.alloc());
        if let GdbLook::Kill = asked {
            self.follow(asked, packet)?;
            return Ok(out);
        }
        let text = text_of(
            &mut self.session,
            self.hart,
            self.last,
            self.takes_swbreak,
            asked,
        )?;
        out.push(text)?;
        self.follow(asked, packet)?;
        Ok(out)
    }

    /// Does what a request that moves nothing changes: the debugger's lists, and the talk.
    fn follow(&mut self, asked: GdbLook, packet: &[u8]) -> Result<(), AllocError>
        ensures same { timeline_of self.new.session ≡ timeline_of self.old.session }
        ensures rest { KeepsPlan self.old.session self.new.session }
        ensures shown { OnOk result (self.new.hart ≡ hart_shown asked (size_of self.old.session) self.old.hart) }
        ensures points { OnOk result (points_of self.new.session ≡ points_after asked (points_of self.old.session)) }
        ensures watches { OnOk result (watches_of self.new.session ≡ watches_after asked (watches_of self.old.session)) }
        ensures kept { OnOk result (IsKept asked self.old self.new) }
    {
        match asked {
            GdbLook::Show(thread) => {
                self.hart = self.thread_or(thread, self.hart);
                Ok(())
            }
            GdbLook::Run(thread) => {
                self.choose(thread);
                Ok(())
            }
            GdbLook::RunSelected => {
                self.runner = None;
                Ok(())
            }
            GdbLook::IsAlive(thread) => {
                self.selected = self.thread_or(thread, self.selected);
                Ok(())
            }
            GdbLook::SetPoint(address) => self.session.set_point(address),
            GdbLook::ClearPoint(address) => {
                self.session.clear_point(address);
                Ok(())
            }
            GdbLook::SetWatch(what, address, count) => {
                self.session.set_watch(watch_of(what, address, count))
            }
            GdbLook::ClearWatch(what, address, count) => {
                self.session.clear_watch(watch_of(what, address, count));
                Ok(())
            }
            GdbLook::Supports => self.hear_offers(packet),
            GdbLook::NoAcks => {
                self.acknowledges = false;
                Ok(())
            }
            GdbLook::Detach | GdbLook::Kill => {
                self.is_over = true;
                Ok(())
            }
            GdbLook::Reason
            | GdbLook::Registers
            | GdbLook::Register(_)
            | GdbLook::Memory(_, _)
            | GdbLook::AnyThread
            | GdbLook::Write
            | GdbLook::Part(_, _, _)
            | GdbLook::CurrentThread
            | GdbLook::IsAttached
            | GdbLook::FirstThreads
            | GdbLook::MoreThreads
            | GdbLook::Actions
            | GdbLook::Malformed
            | GdbLook::Unknown => Ok(()),
        }
    }

    /// The hart of a thread, where there is one; else this one.
    fn thread_or(&self, thread: u64, hart: HartId) -> HartId
        requires { hart < (size_of self.now.session).harts }
        ensures is { result ≡ hart_or (hart_named (size_of self.now.session) thread) hart }
        ensures there { result < (size_of self.now.session).harts }
    {
        match hart_of(self.session.setting().shape, thread) {
            Some(named) => named,
            None => hart,
        }
    }

    /// The hart of a thread runs from now on, where there is one.
    fn choose(&mut self, thread: u64)
        ensures same { self.new.session ≡ self.old.session }
        ensures talk { IsTalk self.old.last self.new.runner self.old.takes_swbreak self.old.acknowledges self.old.is_over
            self.new }
        ensures chosen { self.new.runner ≡ named_or (hart_named (size_of self.old.session) thread) self.old.runner }
        ensures hart { self.new.hart ≡ self.old.hart }
        ensures selected { self.new.selected ≡ self.old.selected }
    {
        if let Some(hart) = hart_of(self.session.setting().shape, thread) {
            self.runner = Some(hart);
        }
    }

    /// Hears whether GDB takes `swbreak`.
    fn hear_offers(&mut self, packet: &[u8]) -> Result<(), AllocError>
        ensures same { self.new.session ≡ self.old.session }
        ensures talk { IsTalk self.old.last self.old.runner self.new.takes_swbreak self.old.acknowledges self.old.is_over self.new }
        ensures hart { self.new.hart ≡ self.old.hart }
        ensures selected { self.new.selected ≡ self.old.selected }
    {
        if let Some(offers) = strip_prefix(packet, b"qSupported:") {
            let offers = parts(self.alloc(), offers)?;
            self.takes_swbreak = offers.iter().any(|w| *w == b"swbreak+".as_slice());
        }
        Ok(())
    }
}
