//! What a call reads and changes of the process that makes it.
ghost use Rattle.std.specs.Prelude.{◌≡◌, ◌<◌, is_some, length};
ghost use Rattle.u_area.specs.Area.{fetched, IsStored};
ghost use Rattle.sig_core.specs.Signals.{due};
ghost use Rattle.fs_nodes.specs.FileSystem.{FileSystem};
ghost use Rattle.u_area.specs.Fields.{with_register, with_call, with_ids, with_handler, with_no_times, with_child_times, with_end};
ghost use Rattle.sys_procs.specs.World.{with_process};
ghost use Rattle.sys_procs.specs.Handed.{handed, board, process_here, IsAlive};
ghost use Rattle.sys_procs.specs.inside.Handed.{HasArea};

use crate::procs::Procs;
use proc_tab::Row;
use sig_core::due_in;
use u_area::UArea;
use v6_base::Slot;

impl Procs {
    /// The row of a process.
    pub(crate) fn row(&self, s: Slot) -> Row
        requires { IsAlive self.now s }
        ensures { result ≡ (process_here self.now s).row }
    {
        *self.rows.row(s)
    }

    /// The u area of a process.
    pub(crate) fn area(&self, s: Slot) -> UArea
        requires { IsAlive self.now s }
        ensures { result ≡ (process_here self.now s).u }
    {
        self.images.area(s)
    }

    /// The bytes of the u area of a process, where they stand.
    pub(crate) fn area_bytes(&self, s: Slot) -> &[u8]
        requires { IsAlive self.now s }
        ensures read { fetched result.now ≡ (process_here self.now s).u }
        ensures stored { IsStored result.now }
        ensures size { length result.now ≡ 1024 }
    {
        self.images.area_bytes(s)
    }

    /// Whether a signal is due to a process.
    pub(crate) fn is_due(&self, s: Slot) -> bool
        requires { IsAlive self.now s }
        ensures { result ≡ is_some (due (process_here self.now s).row (process_here self.now s).u) }
    {
        due_in(&self.row(s), self.area_bytes(s)).is_some()
    }

    /// Gives a process another u area, for the image that it has.
    pub(crate) fn put_area(&mut self, s: Slot, u: &UArea)
        requires alive { IsAlive self.old s }
        requires text { u.now.text_size ≡ (process_here self.old s).u.text_size }
        requires data_size { u.now.data_size ≡ (process_here self.old s).u.data_size }
        requires stack_size { u.now.stack_size ≡ (process_here self.old s).u.stack_size }
        ensures { HasArea self.old self.new s u.now }
    {
        self.images.see_kept();
        self.images.set_area(s, u);
    }

    /// Gives a register of a process a value.
    pub(crate) fn put_register(&mut self, s: Slot, n: usize, value: u16)
        requires alive { IsAlive self.old s }
        requires number { n < 8 }
        ensures { HasArea self.old self.new s (with_register (process_here self.old s).u n value) }
    {
        self.images.see_kept();
        self.images.set_register(s, n, value);
    }

    /// Gives a process a call to go on with, or none.
    pub(crate) fn put_call(&mut self, s: Slot, pending: u8, call: &[u16; 8])
        requires alive { IsAlive self.old s }
        ensures { HasArea self.old self.new s (with_call (process_here self.old s).u pending call.now) }
    {
        self.images.see_kept();
        self.images.set_call(s, pending, call);
    }

    /// Gives a process other users and groups.
    pub(crate) fn put_ids(&mut self, s: Slot, ids: [u8; 4])
        requires alive { IsAlive self.old s }
        ensures { HasArea self.old self.new s (with_ids (process_here self.old s).u ids) }
    {
        self.images.see_kept();
        self.images.set_ids(s, ids);
    }

    /// Sets what a signal does to a process.
    pub(crate) fn put_handler(&mut self, s: Slot, sig: usize, handler: u16)
        requires alive { IsAlive self.old s }
        requires number { sig < 20 }
        ensures { HasArea self.old self.new s (with_handler (process_here self.old s).u sig handler) }
    {
        self.images.see_kept();
        self.images.set_handler(s, sig, handler);
    }

    /// A process has used no time, and no child of it has.
    pub(crate) fn clear_times(&mut self, s: Slot)
        requires alive { IsAlive self.old s }
        ensures { HasArea self.old self.new s (with_no_times (process_here self.old s).u) }
    {
        self.images.see_kept();
        self.images.clear_times(s);
    }

    /// Gives a process other times of its children.
    pub(crate) fn put_child_times(&mut self, s: Slot, user: u32, system: u32)
        requires alive { IsAlive self.old s }
        ensures { HasArea self.old self.new s (with_child_times (process_here self.old s).u user system) }
    {
        self.images.see_kept();
        self.images.set_child_times(s, user, system);
    }

    /// A process has ended with a status: it has no directory, and does this where signals come.
    pub(crate) fn put_end(&mut self, s: Slot, status: u16, handlers: &[u16; 20])
        requires alive { IsAlive self.old s }
        ensures { HasArea self.old self.new s (with_end (process_here self.old s).u status handlers.now) }
    {
        self.images.see_kept();
        self.images.set_ended(s, status, handlers);
    }

    /// Gives a process another row, with the pid and the parent that it has.
    pub(crate) fn put_row(&mut self, s: Slot, row: Row)
        requires alive { IsAlive self.old s }
        requires pid { row.pid ≡ (process_here self.old s).row.pid }
        requires ppid { row.ppid ≡ (process_here self.old s).row.ppid }
        ensures state { (fs : FileSystem) → handed self.new fs
            ≡ with_process (handed self.old fs) s (record (process_here self.old s) { row = row }) }
        ensures here { process_here self.new s ≡ record (process_here self.old s) { row = row } }
        ensures table { self.new.table ≡ self.old.table }
        ensures board { board self.new ≡ board self.old }
        ensures alive { IsAlive self.new s }
    {
        self.rows.set_row(s, row);
    }
}
