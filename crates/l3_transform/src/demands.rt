ghost use Rattle.std.specs.Prelude.{◌≡◌, ◌<◌, ◌^◌};
ghost use Rattle.l3_transform.specs.Joint.{prefers};

/// Whether middle and side together demand fewer bits than left and right. At a tie they do not.
pub fn prefer(left: u32, right: u32, middle: u32, side: u32) -> bool
    requires left { left < 2 ^ 30 }
    requires right { right < 2 ^ 30 }
    requires middle { middle < 2 ^ 30 }
    requires side { side < 2 ^ 30 }
    ensures { result ≡ prefers left right middle side }
{
    middle + side < left + right
}
