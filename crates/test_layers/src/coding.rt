//! The files of rows of pictures, transforms, choice and the coder.
use crate::{
    h263_planes_rows, half_sample_rows, idct8_rows, mode_choice_rows, motion_search_rows,
    picture_coder_rows, picture_recon_rows, picture_store_rows, quantiser_rows, sad_kernel_rows,
};
use std::alloc::Global;
use test_fixtures::answer::{Answer, Asked};
use test_fixtures::rows::Answers;

/// A layer, and its file of rows.
#[derive(Clone, Copy)]
pub enum Coding {
    H263Planes,
    PictureStore,
    Quantiser,
    Idct8,
    HalfSample,
    PictureRecon,
    SadKernel,
    MotionSearch,
    ModeChoice,
    PictureCoder,
}

/// All of them.
pub const CODING: [Coding; 10] = [
    Coding::H263Planes,
    Coding::PictureStore,
    Coding::Quantiser,
    Coding::Idct8,
    Coding::HalfSample,
    Coding::PictureRecon,
    Coding::SadKernel,
    Coding::MotionSearch,
    Coding::ModeChoice,
    Coding::PictureCoder,
];

impl Answers for Coding {
    fn file(&self) -> &'static str {
        match self {
            Coding::H263Planes => "h263_planes.rows",
            Coding::PictureStore => "picture_store.rows",
            Coding::Quantiser => "quantiser.rows",
            Coding::Idct8 => "idct8.rows",
            Coding::HalfSample => "half_sample.rows",
            Coding::PictureRecon => "picture_recon.rows",
            Coding::SadKernel => "sad_kernel.rows",
            Coding::MotionSearch => "motion_search.rows",
            Coding::ModeChoice => "mode_choice.rows",
            Coding::PictureCoder => "picture_coder.rows",
        }
    }

    fn answer(&self, alloc: Global, call: &str, asked: &mut Asked<'_>, answer: &mut Answer) {
        match self {
            Coding::H263Planes => h263_planes_rows::answer(call, asked, answer),
            Coding::PictureStore => picture_store_rows::answer(alloc, call, answer),
            Coding::Quantiser => quantiser_rows::answer(call, asked, answer),
            Coding::Idct8 => idct8_rows::answer(call, asked, answer),
            Coding::HalfSample => half_sample_rows::answer(call, asked, answer),
            Coding::PictureRecon => picture_recon_rows::answer(call, asked, answer),
            Coding::SadKernel => sad_kernel_rows::answer(call, asked, answer),
            Coding::MotionSearch => motion_search_rows::answer(call, asked, answer),
            Coding::ModeChoice => mode_choice_rows::answer(call, asked, answer),
            Coding::PictureCoder => picture_coder_rows::answer(alloc, call, asked, answer),
        }
    }
}
