//! Laws of worlds, each as the contract of a function that does nothing.

ghost use Rattle.std.specs.Prelude.{◌≡◌, ◌≤◌, ℕ, true, false, Some, length, slice_get};
ghost use Rattle.lock_db.specs.declared.name.LockName.{LockName};
ghost use Rattle.node_cache.specs.Cached.{Cached};
ghost use Rattle.plain_cat.specs.declared.mode.Mode.TheVariants.{PR};
ghost use Rattle.base_words.specs.Lists.{Has};
ghost use Rattle.plain_cat.specs.declared.command.Cmd.{Cmd};
ghost use Rattle.plain_cat.specs.declared.reply.Refusal.{Refusal};
ghost use Rattle.node_locks.specs.Held.{system_of, has_lock};
ghost use Rattle.op_law.specs.Laws.{held_in, Lawful};
ghost use Rattle.core_state.specs.Worlds.{NodeState, Plain, node_at, current};
ghost use Rattle.core_state.specs.Caches.{current_entry};
ghost use Rattle.core_state.specs.Goods.{Good, held_by};
ghost use Rattle.core_state.specs.Events.{is_held_up, is_over, after_turn};
ghost use Rattle.core_state.specs.Deaths.{outside_now, died};
ghost use Rattle.core_state.specs.Uses.{UsesTheDrives};
ghost use Rattle.core_state.specs.Outside.{IsOutsideLocked, most_numbers, IsSoleOutside};

/// A world keeps the rules where a node dies, whatever its command had come to: the history, with the death as its last entry, replays
/// still, the drive is that of the catalogue to which it leads, and what the other nodes hold, have open and know stays. The drive, the
/// script and the opening catalogue are as before.
pub fn deaths_keep_the_rules()
    ensures { (w : Plain) (n : ℕ) → Good w → is_over w n ≡ false → Good (died w n) }
{}

/// A world keeps the rules over the turn of a node, whatever event comes in it: of its command, of its rules for space, or of a
/// give-back of its stock. The command that it goes on with, or begins, obeys the law.
pub fn turns_keep_the_rules()
    ensures { (w : Plain) (n : ℕ) → Good w
        → ((s : NodeState) (x : Cmd) → node_at w.nodes n ≡ Some s → is_held_up w n s ≡ false → current w n s ≡ Some x → Lawful x)
        → Good (after_turn w n) }
{}

/// A node that has anything outside files and bitmaps, in its stock, taken for it, or for its command, holds X in CR or more, or V in
/// PW.
pub fn stocks_are_locked()
    ensures { (w : Plain) (n : ℕ) (s : NodeState) → Good w → node_at w.nodes n ≡ Some s → IsOutsideLocked w n s }
{}

/// A node has at most 24 file numbers outside files and bitmaps, in its stock, taken for it, or for its command: 8 spare ones, and 16
/// of its command's writes.
pub fn numbers_outside_are_few()
    ensures { (w : Plain) (n : ℕ) (s : NodeState) → Good w → node_at w.nodes n ≡ Some s → length (outside_now s).numbers ≤ most_numbers }
{}

/// A command is refused for want of space only where its node holds X in EX and V in PW, and no other node has anything outside.
pub fn shortage_is_of_all()
    ensures { (w : Plain) (n : ℕ) (s : NodeState) (r : Refusal) → Good w → node_at w.nodes n ≡ Some s → s.seen.short ≡ Some r → IsSoleOutside w n s }
{}

/// A node that has a cached block holds the lock that guards it, in NL or more, also while a conversion of it waits.
pub fn cached_blocks_are_under_locks()
    ensures { (w : Plain) (n : ℕ) (s : NodeState) (e : Cached) → Good w → node_at w.nodes n ≡ Some s → Has s.cache e → has_lock e.lock (system_of n) w.locks ≡ true }
{}

/// A cached block whose entry is current, of a node that holds its lock in PR or more, is the drive's: so is each that a turn uses.
pub fn current_blocks_are_the_drives()
    ensures { (w : Plain) (n : ℕ) (s : NodeState) (name : LockName) (lbn : ℕ) (e : Cached) → Good w → node_at w.nodes n ≡ Some s → Has (held_in PR (held_by w.locks n s)) name
        → current_entry w.geometry w.locks name lbn s.cache ≡ Some e → slice_get w.blocks lbn ≡ Some e.block }
{}

/// Each block that a node uses from its cache in its next turn is the drive's, if its command obeys the law.
pub fn used_blocks_are_the_drives()
    ensures { (w : Plain) (n : ℕ) → Good w
        → ((s : NodeState) (x : Cmd) → node_at w.nodes n ≡ Some s → is_held_up w n s ≡ false → current w n s ≡ Some x → Lawful x)
        → UsesTheDrives w n }
{}
