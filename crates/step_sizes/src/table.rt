// The table of steps: index 0 to 255.
ghost use Rattle.std.specs.Prelude.{◌≡◌, ◌≤◌, ◌<◌};
ghost use Rattle.step_sizes.specs.Steps.{step_of, step_answer, largest_step};

use std::marker::Model;

const STEPS: [u32; 256] = [
    1, 1, 2, 3, 4, 5, 6, 7, 8, 9, 10, 11, 12, 13, 14, 15, 16, 17, 18, 19, 20, 21, 22, 23, 24, 25,
    26, 27, 28, 29, 30, 31, 32, 34, 36, 38, 40, 42, 44, 46, 48, 50, 52, 54, 56, 58, 60, 62, 64, 68,
    72, 76, 80, 84, 88, 92, 96, 100, 104, 108, 112, 116, 120, 124, 128, 136, 144, 152, 160, 168,
    176, 184, 192, 200, 208, 216, 224, 232, 240, 248, 256, 272, 288, 304, 320, 336, 352, 368, 384,
    400, 416, 432, 448, 464, 480, 496, 512, 544, 576, 608, 640, 672, 704, 736, 768, 800, 832, 864,
    896, 928, 960, 992, 1024, 1088, 1152, 1216, 1280, 1344, 1408, 1472, 1536, 1600, 1664, 1728,
    1792, 1856, 1920, 1984, 2048, 2176, 2304, 2432, 2560, 2688, 2816, 2944, 3072, 3200, 3328, 3456,
    3584, 3712, 3840, 3968, 4096, 4352, 4608, 4864, 5120, 5376, 5632, 5888, 6144, 6400, 6656, 6912,
    7168, 7424, 7680, 7936, 8192, 8704, 9216, 9728, 10240, 10752, 11264, 11776, 12288, 12800,
    13312, 13824, 14336, 14848, 15360, 15872, 16384, 17408, 18432, 19456, 20480, 21504, 22528,
    23552, 24576, 25600, 26624, 27648, 28672, 29696, 30720, 31744, 32768, 34816, 36864, 38912,
    40960, 43008, 45056, 47104, 49152, 51200, 53248, 55296, 57344, 59392, 61440, 63488, 65536,
    69632, 73728, 77824, 81920, 86016, 90112, 94208, 98304, 102400, 106496, 110592, 114688, 118784,
    122880, 126976, 131072, 139264, 147456, 155648, 163840, 172032, 180224, 188416, 196608, 204800,
    212992, 221184, 229376, 237568, 245760, 253952, 262144, 278528, 294912, 311296, 327680, 344064,
    360448, 376832, 393216, 409600, 425984, 442368, 458752, 475136, 491520, 507904,
];

// A step that divides and multiplies: at least 1, and at most the largest of the table. Contracts see it as the plain number.
#[derive(Clone, Copy)]
pub struct StepSize {
    size: u32,
}

impl Model for StepSize {
    ghost use Rattle.std.specs.Prelude.{ℕ, ◌≤◌, ◌<◌};
    ghost use Rattle.step_sizes.specs.Steps.{largest_step};

    ghost Value = { ℕ };

    ghost view = { λ step. step.size };

    ghost invariant = { λ step. (0 < step.size) × (step.size ≤ largest_step) };

    ghost inverse = { λ size. record { size = size } };
}

impl StepSize {
    pub fn new(size: u32) -> StepSize
        requires positive { 0 < size }
        requires most { size ≤ largest_step }
        ensures { result ≡ size }
    {
        StepSize { size }
    }

    pub fn get(self) -> u32
        ensures value { result ≡ self }
        ensures positive { 0 < self }
        ensures most { self ≤ largest_step }
    {
        self.size
    }
}

// The step of an index of the table.
pub fn step(index: u8) -> StepSize
    ensures { result ≡ step_of index }
{
    StepSize {
        size: STEPS[index as usize],
    }
}

// The step of any index: 0 where the table has none.
pub fn step_or_zero(index: u32) -> u32
    ensures { result ≡ step_answer index }
{
    match u8::try_from(index) {
        Ok(index) => step(index).get(),
        Err(_) => 0,
    }
}
