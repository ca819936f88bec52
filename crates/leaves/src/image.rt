// The layouts of a lent plane (the Rust's image.rs).
ghost use Rattle.std.specs.Prelude.{◌≡◌, not};
ghost use Rattle.leaves.specs.Formats.{bytes_per_pixel, bits_per_pixel, is_indexed, blue_first, is_rgb565, mask_source};

#[derive(Clone, Copy)]
pub enum BmpPixelFormat {
    // 8-bit red, green, blue, alpha.
    Rgba,
    // 8-bit red, green, blue.
    Rgb24,
    // 8-bit blue, green, red, alpha.
    Bgra,
    // 8-bit blue, green, red.
    Bgr24,
    // 16-bit words, low byte first: red, green, blue from bits 10, 5, 0.
    Rgb555,
    // 16-bit words, low byte first: red, green, blue from bits 11, 5, 0.
    Rgb565,
    // One index byte a pixel; the number is the depth the file stores.
    Pal8,
    Indexed4,
    Indexed2,
    Indexed1,
}

impl BmpPixelFormat {
    // Bytes per pixel of the lent plane.
    pub fn bytes_per_pixel(self) -> usize
        ensures { result ≡ bytes_per_pixel self }
    {
        match self {
            BmpPixelFormat::Rgba => 4,
            BmpPixelFormat::Rgb24 => 3,
            BmpPixelFormat::Bgra => 4,
            BmpPixelFormat::Bgr24 => 3,
            BmpPixelFormat::Rgb555 => 2,
            BmpPixelFormat::Rgb565 => 2,
            BmpPixelFormat::Pal8 => 1,
            BmpPixelFormat::Indexed4 => 1,
            BmpPixelFormat::Indexed2 => 1,
            BmpPixelFormat::Indexed1 => 1,
        }
    }

    // Bits per pixel of the file.
    pub fn bits_per_pixel(self) -> u16
        ensures { result ≡ bits_per_pixel self }
    {
        match self {
            BmpPixelFormat::Rgba => 32,
            BmpPixelFormat::Rgb24 => 24,
            BmpPixelFormat::Bgra => 32,
            BmpPixelFormat::Bgr24 => 24,
            BmpPixelFormat::Rgb555 => 16,
            BmpPixelFormat::Rgb565 => 16,
            BmpPixelFormat::Pal8 => 8,
            BmpPixelFormat::Indexed4 => 4,
            BmpPixelFormat::Indexed2 => 2,
            BmpPixelFormat::Indexed1 => 1,
        }
    }

    // Whether the file has a colour table.
    pub fn is_indexed(self) -> bool
        ensures { result ≡ is_indexed self }
    {
        matches!(
            self,
            BmpPixelFormat::Pal8
                | BmpPixelFormat::Indexed4
                | BmpPixelFormat::Indexed2
                | BmpPixelFormat::Indexed1
        )
    }

    // Whether blue comes first.
    pub fn is_blue_first(self) -> bool
        ensures { result ≡ blue_first self }
    {
        matches!(self, BmpPixelFormat::Bgra | BmpPixelFormat::Bgr24)
    }

    // The one plain source with a 108-byte header.
    pub fn is_rgb565(self) -> bool
        ensures { result ≡ is_rgb565 self }
    {
        matches!(self, BmpPixelFormat::Rgb565)
    }

    // Whether masks can be given: samples of 8 bits.
    pub fn takes_masks(self) -> bool
        ensures { result ≡ not (mask_source self) }
    {
        matches!(
            self,
            BmpPixelFormat::Rgba
                | BmpPixelFormat::Rgb24
                | BmpPixelFormat::Bgra
                | BmpPixelFormat::Bgr24
        )
    }
}
