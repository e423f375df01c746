// The calls of `start`.
ghost use Rattle.std.specs.Prelude.{◌≡◌, IfOk, OnOk, OnErr, [], ◌∷◌, ◌++◌};
ghost use Rattle.memory_children.specs.Kept.{IsCall, shown_frames};

use std::alloc::{AllocError, Global};

/// A call of `start`.
#[derive(Drop)]
pub struct Call {
    /// The name that was given.
    pub name: String,
    /// The command that was given.
    pub command: Vec<String>,
}

/// A record of a call. It fails only when memory runs out.
pub fn copy_call(alloc: Global, name: &str, command: &[String]) -> Result<Call, AllocError>
    ensures { IfOk result (IsCall name.now command.now) }
{
    let mut words = Vec::new(alloc);
    for word in command {
        words.push(word.clone()?)?;
    }
    Ok(Call {
        name: String::from_str(alloc, name)?,
        command: words,
    })
}

/// Puts a copy of a frame behind others.
pub fn push_frame(alloc: Global, frames: &mut Vec<Vec<u8>>, frame: &[u8]) -> Result<(), AllocError>
    ensures ok { OnOk result (shown_frames frames.new.items ≡ shown_frames frames.old.items ++ frame.now ∷ []) }
    ensures err { OnErr result (frames.new.items ≡ frames.old.items) }
{
    frames.push(frame.to_vec(alloc)?)?;
    Ok(())
}
