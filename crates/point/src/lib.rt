// A point of three f32 components.
#![tactic(auto)]

ghost use Rattle.std.specs.Prelude.{◌≡◌, true, from_bits};
ghost use Rattle.std.specs.Float.{binary32};
ghost use Rattle.point.specs.Points.{point, plus, times, scaled, Literals};

use std::num::{f32_from_bits_with_nan, f32_to_bits_with_nan};
use std::ops::{Add, Mul};

pub mod interpolation;

#[derive(Clone, Copy)]
pub struct Vec3A {
    pub x: f32,
    pub y: f32,
    pub z: f32,
}

impl Vec3A {
    pub const fn new(x: f32, y: f32, z: f32) -> Vec3A
        ensures { result ≡ point x y z }
    {
        Vec3A { x, y, z }
    }

    // The point whose components have these bits; those of a NaN give a NaN.
    pub fn from_bits(x: u32, y: u32, z: u32) -> Vec3A
        ensures { result ≡ point (from_bits binary32 x) (from_bits binary32 y) (from_bits binary32 z) }
    {
        Vec3A {
            x: f32_from_bits_with_nan(x),
            y: f32_from_bits_with_nan(y),
            z: f32_from_bits_with_nan(z),
        }
    }

    // `f` of each component.
    fn map<F: Fn(f32) -> f32>(self, f: F) -> Vec3A
        requires { F.IsAlwaysCallable f }
        ensures x { F.post f self.x result.x }
        ensures y { F.post f self.y result.y }
        ensures z { F.post f self.z result.z }
    {
        Vec3A {
            x: f(self.x),
            y: f(self.y),
            z: f(self.z),
        }
    }

    // `f` of each two components.
    fn zip<F: Fn(f32, f32) -> f32>(self, other: Vec3A, f: F) -> Vec3A
        requires { F.IsAlwaysCallable f }
        ensures x { F.post f self.x other.x result.x }
        ensures y { F.post f self.y other.y result.y }
        ensures z { F.post f self.z other.z result.z }
    {
        Vec3A {
            x: f(self.x, other.x),
            y: f(self.y, other.y),
            z: f(self.z, other.z),
        }
    }

    // Whether the two are equal by the bits of their components, all NaN alike: -0 is not 0. No derived `==`
    // says so, since that of floats takes -0 for 0 and no NaN for itself.
    pub fn same_bits(self, other: Vec3A) -> bool
        ensures sound { result ≡ true → self ≡ other }
        ensures complete { self ≡ other → result ≡ true }
    {
        same_float(self.x, other.x) && same_float(self.y, other.y) && same_float(self.z, other.z)
    }
}

fn same_float(a: f32, b: f32) -> bool
    ensures sound { result ≡ true → a ≡ b }
    ensures complete { a ≡ b → result ≡ true }
{
    f32_to_bits_with_nan(a) == f32_to_bits_with_nan(b)
}

// Component by component.
impl Add<Vec3A> for Vec3A {
    type Output = Vec3A;

    ghost add_gives = { λ a b r. r ≡ plus a b };

    fn add(self, rhs: Vec3A) -> Vec3A {
        self.zip(rhs, |a, b| a + b)
    }
}

// Component by component.
impl Mul<Vec3A> for Vec3A {
    type Output = Vec3A;

    ghost mul_gives = { λ a b r. r ≡ times a b };

    fn mul(self, rhs: Vec3A) -> Vec3A {
        self.zip(rhs, |a, b| a * b)
    }
}

// Each component times `k`.
impl Mul<f32> for Vec3A {
    type Output = Vec3A;

    ghost mul_gives = { λ a k r. r ≡ scaled k a };

    fn mul(self, k: f32) -> Vec3A {
        self.map(|a| a * k)
    }
}

// Each component of `rhs` times this factor.
impl Mul<Vec3A> for f32 {
    type Output = Vec3A;

    ghost mul_gives = { λ k a r. r ≡ scaled k a };

    fn mul(self, rhs: Vec3A) -> Vec3A {
        rhs * self
    }
}

// The numbers that the definitions write by their bits.
pub fn literals_stand()
    ensures { Literals }
{}
