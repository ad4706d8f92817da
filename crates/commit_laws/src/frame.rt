//! The law of what an image's check rests on.

ghost use Rattle.commit_laws.specs.Frame.{FrameLaw};

/// Another image that agrees in the superblock and in each copy of each live block has the same full check, and the same is known of it.
pub fn frame_law()
    ensures { FrameLaw }
{}
