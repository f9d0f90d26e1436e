// A caption looked at.

#![tactic(auto)]

ghost use Rattle.std.specs.Prelude.{◌≡◌};
ghost use Rattle.captions.specs.Caption.{caption_good};

// At most 200 bytes, each from the space to the tilde.
pub fn caption_good(caption: &[u8]) -> bool
    ensures { result ≡ caption_good caption.now }
{
    caption.len() <= 200 && caption.iter().all(|b| (0x20..=0x7E).contains(b))
}
