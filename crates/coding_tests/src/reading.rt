// What each command answers by itself, over files that are known byte for byte.
mod crew;
mod devices;
