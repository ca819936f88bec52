// The palette of the sample.
ghost use Rattle.std.specs.Prelude.{◌≡◌, ◌+◌, ◌-◌, ◌*◌, ◌/◌, ◌<◌, length, get_or};
ghost use Rattle.command.specs.Sample.{stops, channel_at, shade, sample_palette};

// Red, green and blue of every 64th entry.
fn stop(n: usize) -> usize
    requires { n < 15 }
    ensures { (result ≡ get_or stops n 0) × (result < 256) }
{
    let stops = [
        68u8, 1, 84, 59, 82, 139, 33, 145, 140, 94, 201, 98, 253, 231, 37,
    ];
    stops[n] as usize
}

// 64ths of the way from one to the other.
fn between(low: usize, high: usize, far: usize) -> u8
    requires low_bound { low < 256 }
    requires high_bound { high < 256 }
    requires far_bound { far < 64 }
    ensures { result ≡ (low * (64 - far) + high * far) / 64 }
{
    ((low * (64 - far) + high * far) / 64) as u8
}

// A channel of an entry: straight between two stops.
fn channel_at(entry: usize, channel: usize) -> u8
    requires bound { entry < 256 }
    requires channel_bound { channel < 3 }
    ensures { result ≡ channel_at entry channel }
{
    let n = entry / 64 * 3 + channel;
    between(stop(n), stop(n + 3), entry % 64)
}

fn shade(i: usize) -> u8
    requires { i < 1024 }
    ensures { result ≡ shade i }
{
    if i % 4 == 3 {
        return 255;
    }
    channel_at(i / 4, i % 4)
}

// Red, green, blue and alpha of 256 entries.
pub fn sample_palette() -> [u8; 1024]
    ensures { (result ≡ sample_palette) × (length result ≡ 1024) }
{
    let mut palette = [0u8; 1024];
    for i in 0..1024 {
        palette[i] = shade(i);
    }
    palette
}
